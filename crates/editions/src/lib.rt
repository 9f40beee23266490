// An archive of editions: the file of an edition is found by one walk over the archive, which tests every saved file; a file is saved behind
// the others. The old archive is only read.
#![tactic(auto)]

ghost use Rattle.std.specs.Prelude.{◌≡◌, ◌++◌, ◌+◌, ◌≤◌, ◌<◌, length};
ghost use Rattle.std.proofs.lemmas.List.Edits.{sets};
ghost use Rattle.clearing.specs.Lent.{zeros};
ghost use Rattle.editions.specs.Archive.{bytes32, record_of};
ghost use Rattle.editions.specs.Answers.{edition_of, in_room, saved_of};
ghost use Rattle.editions.specs.Meeting.{length_in, met_as, or_this, searched};

use refusals::{Fault, Refusal};
use taggedfields::Span;

// The length at the front of a record.
fn length_at(archive: &[u8], at: usize) -> usize
    requires { at + 4 ≤ length archive.now }
    ensures { (result ≡ length_in archive.now at) × (result < 4294967296) }
{
    let size = [
        archive[at],
        archive[at + 1],
        archive[at + 2],
        archive[at + 3],
    ];
    u32::from_le_bytes(size) as usize
}

// The first fault of the saved file whose bytes these are, or whether it is of the edition.
fn meet(file: &[u8], edition: &[u8]) -> Result<bool, Fault>
    ensures { result ≡ met_as file.now edition.now }
{
    match taggedfields::look(file, 1)? {
        None => Ok(false),
        Some(own) => Ok(own.of(file) == edition),
    }
}

// The first that is of the edition.
fn or_this(found: Option<Span>, is: bool, span: Span) -> Option<Span>
    ensures { result ≡ or_this found is span }
{
    found.or(is.then_some(span))
}

// Tests every saved file of an archive, and finds the first of an edition.
fn search(archive: &[u8], edition: &[u8]) -> Result<Option<Span>, Fault>
    requires { length archive.now ≤ 4294967295 }
    ensures { result ≡ searched archive.now edition.now }
{
    let mut at = 0;
    let mut found = None;
    while at < archive.len() {
        if archive.len() - at < 4 {
            return Err(Refusal::DataTooShort.at(at as u32));
        }
        let size = length_at(archive, at);
        let start = at + 4;
        if archive.len() - start < size {
            return Err(Refusal::DataTooShort.at(at as u32));
        }
        let end = start + size;
        match meet(&archive[start..end], edition) {
            Err(fault) => return Err(fault.refusal.at(start as u32 + fault.place)),
            Ok(is) => {
                let span = Span {
                    start: start as u32,
                    size: size as u32,
                };
                found = or_this(found, is, span);
            }
        }
        at = end;
    }
    Ok(found)
}

// Where the file of an edition stands in an archive.
pub fn find_edition(archive: &[u8], edition: &[u8]) -> Result<Span, Fault>
    ensures { result ≡ edition_of archive.now edition.now }
{
    if 0xFFFF_FFFF < archive.len() {
        return Err(Refusal::InputTooLong.at(0));
    }
    search(archive, edition)?.ok_or(Refusal::NoSuchField.at(0))
}

// A length in four bytes, little-endian.
fn store_length(out: &mut [u8], at: usize, n: u32)
    requires { at + 4 ≤ length out.old }
    ensures { out.new ≡ sets out.old at (bytes32 n) }
{
    out[at..at + 4].copy_from_slice(&n.to_le_bytes());
}

// The archive as it is, and the file behind it.
fn put_record(archive: &[u8], file: &[u8], out: &mut [u8])
    requires { (length archive.now + 4 + length file.now ≤ length out.old) × (length file.now < 4294967296) }
    ensures { out.new ≡ sets out.old 0 (archive.now ++ record_of file.now) }
{
    let end = archive.len();
    copying::copy_bytes(&mut out[0..end], archive);
    store_length(out, end, file.len() as u32);
    copying::copy_bytes(&mut out[end + 4..end + 4 + file.len()], file);
}

// A file that may be saved: it is put behind the archive if there is room.
fn put_new(archive: &[u8], file: &[u8], out: &mut [u8]) -> Result<u32, Fault>
    requires { (length archive.now ≤ 4294967295) × (out.old ≡ zeros (length out.old)) }
    ensures { (result, out.new) ≡ in_room (archive.now ++ record_of file.now) (length out.old) }
{
    let size = taggedfields::fitting(out.len(), archive.len() + 4 + file.len())?;
    put_record(archive, file, out);
    Ok(size)
}

// Saves a file behind those of an archive, into the output, and answers how many bytes the new archive has. The archive is tested first.
pub fn save_edition(archive: &[u8], file: &[u8], out: &mut [u8]) -> Result<u32, Fault>
    ensures { (result, out.new) ≡ saved_of archive.now file.now (length out.old) }
{
    clearing::clear_bytes(out);
    if 0xFFFF_FFFF < archive.len() {
        return Err(Refusal::InputTooLong.at(0));
    }
    match taggedfields::look(file, 1) {
        Err(fault) => {
            search(archive, &[])?;
            Err(fault)
        }
        Ok(None) => {
            search(archive, &[])?;
            Err(Refusal::NoSuchField.at(0))
        }
        Ok(Some(own)) => match search(archive, own.of(file))? {
            Some(_) => Err(Refusal::NoSuchField.at(0)),
            None => put_new(archive, file, out),
        },
    }
}
