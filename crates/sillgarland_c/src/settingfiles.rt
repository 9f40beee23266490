// Settings files and their editions for C and Rust callers. See include/sillgarland.h for what a caller owes.
ghost use Rattle.std.specs.Prelude.{◌≡◌, length};
ghost use Rattle.settings.specs.Setting.{setting_of};
ghost use Rattle.settings.specs.Rewriting.{rewrite_of};
ghost use Rattle.editions.specs.Answers.{edition_of, saved_of};
ghost use Rattle.sillgarland.specs.Settingfiles.{setting_struct, rewritten_struct, edition_struct, kept_struct};

use sillgarland::settingfiles::{SillEdition, SillRewritten, SillSaved, SillSetting};

// Where the contents of a tag stand, in the override or else in the default.
#[unsafe(no_mangle)]
pub extern "C" fn sill_setting(own: &[u8], fallback: &[u8], tag: u32) -> SillSetting
    ensures { result ≡ setting_struct (setting_of own.now fallback.now tag) }
{
    sillgarland::settingfiles::sill_setting(own, fallback, tag)
}

// Writes a file of fields again with the contents that the changes have.
#[unsafe(no_mangle)]
pub extern "C" fn sill_rewrite_settings(
    file: &[u8],
    changes: &[u8],
    out: &mut [u8],
) -> SillRewritten
    ensures { (result ≡ rewritten_struct (rewrite_of file.now changes.now (length out.old)).0)
        × (out.new ≡ (rewrite_of file.now changes.now (length out.old)).1) }
{
    sillgarland::settingfiles::sill_rewrite_settings(file, changes, out)
}

// Saves a file behind those of an archive.
#[unsafe(no_mangle)]
pub extern "C" fn sill_save_edition(archive: &[u8], file: &[u8], out: &mut [u8]) -> SillSaved
    ensures { (result ≡ kept_struct (saved_of archive.now file.now (length out.old)).0)
        × (out.new ≡ (saved_of archive.now file.now (length out.old)).1) }
{
    sillgarland::settingfiles::sill_save_edition(archive, file, out)
}

// Where the file of an edition stands in an archive.
#[unsafe(no_mangle)]
pub extern "C" fn sill_edition(archive: &[u8], edition: &[u8]) -> SillEdition
    ensures { result ≡ edition_struct (edition_of archive.now edition.now) }
{
    sillgarland::settingfiles::sill_edition(archive, edition)
}
