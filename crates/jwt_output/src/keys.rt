//! The entries of a key set, in lines or in JSON.
ghost use Rattle.std.specs.Prelude.{◌≡◌, ◌≤◌, length, IfOk};

use crate::fields::{FieldName, FieldValue, Fields, Listing};
use crate::reply::Reply;
use jwt_keys::{Key, KeySet, Skip};
use jwt_mac::KeyView;
use jwt_settings::Printing;
use std::alloc::{AllocError, Global};

/// The `kty` of a key, and how many octets `k` has, or `n` as spelled, or `x`.
fn kind_of(view: KeyView<'_>) -> (&'static str, usize) {
    match view {
        KeyView::Oct { k } => ("oct", k.len()),
        KeyView::Rsa { n, .. } => ("RSA", n.len()),
        KeyView::Ec { x, .. } => ("EC", x.len()),
        KeyView::Okp { x, .. } => ("OKP", x.len()),
    }
}

/// Puts a key.
fn put_key(alloc: Global, out: &mut Listing, number: u32, key: &Key) -> Result<(), AllocError> {
    let (kty, size) = kind_of(key.view());
    let mut fields = Fields::none(alloc);
    fields.count(FieldName::Place, u64::from(key.place()))?;
    fields.word(FieldName::Kty, kty)?;
    fields.maybe(out.printing(), FieldName::Kid, key.kid())?;
    fields.maybe(out.printing(), FieldName::Alg, key.alg_text())?;
    fields.count(FieldName::Size, size as u64)?;
    fields.put(
        FieldName::Thumbprint,
        FieldValue::Word(key.thumbprint_text()),
    )?;
    let head = format!(in alloc; "key={number}")?;
    out.row(alloc, head.as_str(), &fields)
}

/// Puts skipped entries.
fn put_skips(alloc: Global, out: &mut Listing, skips: &[Skip]) -> Result<(), AllocError> {
    for skip in skips {
        let mut fields = Fields::none(alloc);
        fields.count(FieldName::Place, u64::from(skip.place))?;
        fields.word(FieldName::Reason, skip.reason.name())?;
        out.row(alloc, "skip", &fields)?;
    }
    Ok(())
}

/// How many skips stand before the first at or behind this place.
fn before(place: u32, skips: &[Skip]) -> usize
    ensures { result ≤ length skips.now }
{
    for count in 0..skips.len() {
        if skips[count].place >= place {
            return count;
        }
    }
    skips.len()
}

/// Puts the entries of a key set: lines stand in the order of places, and JSON has a list of keys and one of what is skipped.
fn put_entries(alloc: Global, out: &mut Listing, set: &KeySet) -> Result<(), AllocError> {
    let mut skips = set.skipped();
    out.begin_list("keys")?;
    for number in 0..set.len() {
        if let Some(key) = set.key(number) {
            if matches!(out.printing(), Printing::Lines) {
                let (first, rest) = skips.split_at(before(key.place(), skips));
                put_skips(alloc, out, first)?;
                skips = rest;
            }
            put_key(alloc, out, number, key)?;
        }
    }
    out.end_list()?;
    out.begin_list("skipped")?;
    put_skips(alloc, out, skips)?;
    out.end_list()
}

/// The answer of a key set, in JSON or in lines.
pub fn printed_set(alloc: Global, printing: Printing, set: &KeySet) -> Result<Reply, AllocError>
    ensures { IfOk result (λ a. a.status ≡ 0) }
{
    let mut out = Listing::new(alloc, printing)?;
    put_entries(alloc, &mut out, set)?;
    Ok(Reply::of(out.text()?, 0))
}
