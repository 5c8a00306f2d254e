//! The files that the words name.
ghost use Rattle.std.specs.Prelude.{◌≤◌};

use jwt_command::documents::read_document;
use jwt_command::{Files, Reads};
use jwt_output::terminal::push_quoted;
use jwt_settings::Printing;
use jwt_text::{GREATEST_LIMIT, Intake, LONGEST_KEY_SET, LONGEST_POLICY, LONGEST_TOKEN, Reader};
use std::fs::{self, File};
use std::io;

/// What is read of the files that the words name, in the order in which they are told of. Behind the first that can't be read no other is.
#[derive(Drop)]
pub struct FilesRead {
    pub policy: Option<Intake>,
    pub keys: Option<Intake>,
    pub access: Option<Intake>,
    pub token: Option<Intake>,
    pub key: Option<Intake>,
}

/// How the files are read, and whether one couldn't be.
#[derive(Drop)]
struct Reading<'a> {
    rt: &'a HostRuntime,
    printing: Printing,
    has_stopped: bool,
}

/// Says on standard error why a file can't be read, in words or as a JSON object. What becomes of that changes nothing.
fn complain(reading: &Reading<'_>, name: &str, why: &str) {
    let rt = reading.rt;
    let mut quoted = String::new(rt.alloc());
    if push_quoted(&mut quoted, name).is_err() {
        return;
    }
    match reading.printing {
        Printing::Json => {
            let _ = eprintln!(rt; "{{\"file\":{quoted},\"reason\":\"{why}\"}}");
        }
        Printing::Lines => {
            let _ = eprintln!(rt; "jwt: the file {quoted} can't be read: {why}");
        }
    }
}

/// Why a file can't be opened.
fn open_reason(name: &str, error: &io::Error) -> &'static str {
    if name.starts_with("https://") || name.starts_with("http://") {
        return "a URL isn't fetched: save what it gives, as by curl -fsS URL > FILE";
    }
    match error.kind() {
        io::ErrorKind::NotFound => "there is none of this name",
        io::ErrorKind::PermissionDenied => "this user has no permission",
        _ => "it can't be opened",
    }
}

/// Why a file that was opened can't be read.
fn read_reason(rt: &HostRuntime, name: &str) -> &'static str {
    match fs::metadata(rt, name) {
        Ok(metadata) if metadata.is_dir() => "it is a directory",
        _ => "a read failed",
    }
}

/// The first octets of a file that was opened, in pieces; none where they can't be read.
fn octets_of(
    reading: &mut Reading<'_>,
    name: &str,
    file: File,
    limit: u32,
) -> io::Result<Option<Intake>>
    requires least { 1 ≤ limit }
    requires greatest { limit ≤ GREATEST_LIMIT }
{
    let document = read_document(reading.rt.alloc(), limit, &mut Reader::new(file))?;
    if document.is_none() {
        reading.has_stopped = true;
        complain(reading, name, read_reason(reading.rt, name));
    }
    Ok(document)
}

/// The first octets of a file, in pieces; none where none is named, or it can't be read, or one before it couldn't.
fn document(reading: &mut Reading<'_>, name: Option<&str>, limit: u32) -> io::Result<Option<Intake>>
    requires least { 1 ≤ limit }
    requires greatest { limit ≤ GREATEST_LIMIT }
{
    let Some(name) = name else {
        return Ok(None);
    };
    if reading.has_stopped {
        return Ok(None);
    }
    match File::open(reading.rt, name) {
        Ok(file) => octets_of(reading, name, file, limit),
        Err(error) if error.kind() == io::ErrorKind::OutOfMemory => Err(error),
        Err(error) => {
            reading.has_stopped = true;
            complain(reading, name, open_reason(name, &error));
            Ok(None)
        }
    }
}

/// The token of a file, or of standard input where that is named by `-` and holds nothing else.
fn token(reading: &mut Reading<'_>, files: Files<'_>) -> io::Result<Option<Intake>> {
    if files.token != Some("-") {
        return document(reading, files.token, LONGEST_TOKEN);
    }
    if reading.has_stopped {
        return Ok(None);
    }
    if files.policy.is_none() || files.keys.is_none() {
        complain(
            reading,
            "-",
            "it is the token alone where --policy and --keys name files",
        );
        return Ok(None);
    }
    let rt = reading.rt;
    let document = read_document(rt.alloc(), LONGEST_TOKEN, &mut Reader::new(rt.stdin()))?;
    if document.is_none() {
        complain(reading, "-", "a read failed");
    }
    Ok(document)
}

/// Reads the files that the words name.
///
/// # Errors
/// Where an allocation was refused.
pub fn read_files(rt: &HostRuntime, reads: &Reads<'_>) -> io::Result<FilesRead>
    requires least { 1 ≤ reads.now.key_limit }
    requires greatest { reads.now.key_limit ≤ LONGEST_KEY_SET }
{
    let files = reads.files;
    let mut reading = Reading {
        rt,
        printing: reads.printing,
        has_stopped: false,
    };
    let policy = document(&mut reading, files.policy, LONGEST_POLICY)?;
    let keys = document(&mut reading, files.keys, LONGEST_KEY_SET)?;
    let access = document(&mut reading, files.access, LONGEST_POLICY)?;
    let token = token(&mut reading, files)?;
    let key = document(&mut reading, files.key, reads.key_limit)?;
    Ok(FilesRead {
        policy,
        keys,
        access,
        token,
        key,
    })
}

/// The file that stands in the place of standard input; none where it can't be opened, which is said.
///
/// # Errors
/// Where an allocation was refused.
pub fn input_of(rt: &HostRuntime, printing: Printing, name: &str) -> io::Result<Option<File>> {
    let reading = Reading {
        rt,
        printing,
        has_stopped: false,
    };
    match File::open(rt, name) {
        Ok(file) => Ok(Some(file)),
        Err(error) if error.kind() == io::ErrorKind::OutOfMemory => Err(error),
        Err(error) => {
            complain(&reading, name, open_reason(name, &error));
            Ok(None)
        }
    }
}

/// The octets of a document, where one was taken in.
pub fn octets(document: &Option<Intake>) -> Option<&[u8]> {
    match document {
        Some(document) => Some(document.octets()),
        None => None,
    }
}

/// The octets of a token without one final line feed, which is no part of it.
pub fn token_octets(document: &Option<Intake>) -> Option<&[u8]> {
    let octets = octets(document)?;
    Some(octets.strip_suffix(b"\n").unwrap_or(octets))
}
