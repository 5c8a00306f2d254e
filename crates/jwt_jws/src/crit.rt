//! Names that stand twice in `crit` (RFC 7515, section 4.1.11).
ghost use Rattle.std.specs.Prelude.{◌≡◌, ◌||◌, ℕ, List, not, IfOk, OnOk};
ghost use Rattle.std.specs.Str.{bytes_eq};
ghost use Rattle.jwt_jws.specs.Crit.{crit_repeats, has_text, repeats_text};

use jwt_text::Object;
use std::alloc::{AllocError, Global};
use std::collections::BTreeMap;

/// Whether some name stands twice in the list `crit` of the header.
pub(crate) fn crit_repeats(alloc: Global, header: &Object) -> Result<bool, AllocError>
    ensures { IfOk result (λ twice. twice ≡ crit_repeats header.now) }
{
    match header.list("crit") {
        Some(list) => repeats_text(alloc, &list),
        None => Ok(false),
    }
}

/// Whether some text stands twice in the list. Each text is looked up among those that follow it.
fn repeats_text(alloc: Global, list: &jwt_text::List<'_>) -> Result<bool, AllocError>
    ensures { IfOk result (λ twice. twice ≡ repeats_text list.now) }
{
    let mut seen: BTreeMap<&str, ()> = BTreeMap::new(alloc);
    let mut place = list.len();
    while place > 0 {
        place -= 1;
        if let Some(text) = list.text(place) {
            if !add(&mut seen, text)? {
                return Ok(true);
            }
        }
    }
    Ok(false)
}

/// Adds a text, and answers whether it is new.
fn add<'a>(seen: &mut BTreeMap<&'a str, ()>, text: &'a str) -> Result<bool, AllocError>
    ensures new { IfOk result (λ new. new ≡ not (has_text seen.old text.now)) }
    ensures all { OnOk result
        ((other : List ℕ)
        → has_text seen.new other ≡ (bytes_eq text.now other || has_text seen.old other)) }
{
    match seen.insert(text, ()) {
        Ok(old) => Ok(old.is_none()),
        Err(_) => Err(AllocError),
    }
}
