// Settings files and their editions for C and Rust callers. See include/sillgarland.h for what a caller owes.
ghost use Rattle.std.specs.Prelude.{◌≡◌, length};
ghost use Rattle.settings.specs.Setting.{setting_of};
ghost use Rattle.settings.specs.Rewriting.{rewrite_of};
ghost use Rattle.editions.specs.Answers.{edition_of, saved_of};
ghost use Rattle.sillgarland.specs.Settingfiles.{setting_struct, rewritten_struct, edition_struct, kept_struct};

use refusals::Fault;
use settings::{Origin, Setting};
use taggedfields::Span;

// A lookup's answer: its refusal and place, or the file (0 the override, 1 the default) and where in it the contents stand.
#[repr(C)]
#[derive(Clone, Copy)]
pub struct SillSetting {
    pub refusal: u32,
    pub place: u32,
    pub file: u32,
    pub start: u32,
    pub size: u32,
}

// A rewriting's answer: its refusal and place, or how many bytes were written.
// A type of C's header, as `SillSaved` is, with the fields of `SillWritten`.
#[repr(C)]
#[derive(Clone, Copy)]
pub struct SillRewritten {
    pub refusal: u32,
    pub place: u32,
    pub written: u32,
}

// A save's answer: its refusal and place, or how many bytes the new archive has.
#[repr(C)]
#[derive(Clone, Copy)]
pub struct SillSaved {
    pub refusal: u32,
    pub place: u32,
    pub written: u32,
}

// The file of an edition: a refusal and its place, or where the file's bytes stand in the archive.
#[repr(C)]
#[derive(Clone, Copy)]
pub struct SillEdition {
    pub refusal: u32,
    pub place: u32,
    pub start: u32,
    pub size: u32,
}

// Where the contents of a tag stand, in the override or else in the default.
pub fn sill_setting(own: &[u8], fallback: &[u8], tag: u32) -> SillSetting
    ensures { result ≡ setting_struct (setting_of own.now fallback.now tag) }
{
    SillSetting::from(settings::find_setting(own, fallback, tag))
}

// Writes a file of fields again with the contents that the changes have.
pub fn sill_rewrite_settings(file: &[u8], changes: &[u8], out: &mut [u8]) -> SillRewritten
    ensures { (result ≡ rewritten_struct (rewrite_of file.now changes.now (length out.old)).0)
        × (out.new ≡ (rewrite_of file.now changes.now (length out.old)).1) }
{
    SillRewritten::from(settings::rewriting::rewrite(file, changes, out))
}

// Saves a file behind those of an archive.
pub fn sill_save_edition(archive: &[u8], file: &[u8], out: &mut [u8]) -> SillSaved
    ensures { (result ≡ kept_struct (saved_of archive.now file.now (length out.old)).0)
        × (out.new ≡ (saved_of archive.now file.now (length out.old)).1) }
{
    SillSaved::from(editions::save_edition(archive, file, out))
}

// Where the file of an edition stands in an archive.
pub fn sill_edition(archive: &[u8], edition: &[u8]) -> SillEdition
    ensures { result ≡ edition_struct (edition_of archive.now edition.now) }
{
    SillEdition::from(editions::find_edition(archive, edition))
}

impl From<Result<Setting, Fault>> for SillSetting {
    ghost from_gives = { λ answer it. it ≡ setting_struct answer };

    fn from(answer: Result<Setting, Fault>) -> SillSetting {
        match answer {
            Ok(setting) => SillSetting {
                refusal: refusals::ACCEPTED,
                place: 0,
                file: match setting.origin {
                    Origin::Override => 0,
                    Origin::Default => 1,
                },
                start: setting.contents.start,
                size: setting.contents.size,
            },
            Err(fault) => SillSetting {
                refusal: fault.refusal.number(),
                place: fault.place,
                file: 0,
                start: 0,
                size: 0,
            },
        }
    }
}

impl From<Result<u32, Fault>> for SillRewritten {
    ghost from_gives = { λ answer it. it ≡ rewritten_struct answer };

    fn from(answer: Result<u32, Fault>) -> SillRewritten {
        match answer {
            Ok(written) => SillRewritten {
                refusal: refusals::ACCEPTED,
                place: 0,
                written,
            },
            Err(fault) => SillRewritten {
                refusal: fault.refusal.number(),
                place: fault.place,
                written: 0,
            },
        }
    }
}

impl From<Result<u32, Fault>> for SillSaved {
    ghost from_gives = { λ answer it. it ≡ kept_struct answer };

    fn from(answer: Result<u32, Fault>) -> SillSaved {
        match answer {
            Ok(written) => SillSaved {
                refusal: refusals::ACCEPTED,
                place: 0,
                written,
            },
            Err(fault) => SillSaved {
                refusal: fault.refusal.number(),
                place: fault.place,
                written: 0,
            },
        }
    }
}

impl From<Result<Span, Fault>> for SillEdition {
    ghost from_gives = { λ answer it. it ≡ edition_struct answer };

    fn from(answer: Result<Span, Fault>) -> SillEdition {
        match answer {
            Ok(span) => SillEdition {
                refusal: refusals::ACCEPTED,
                place: 0,
                start: span.start,
                size: span.size,
            },
            Err(fault) => SillEdition {
                refusal: fault.refusal.number(),
                place: fault.place,
                start: 0,
                size: 0,
            },
        }
    }
}
