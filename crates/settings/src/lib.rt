// Compare settings: the lookup of a tag in a customer's file and, where it lacks it, in the defaults; and the rewriting of a file.
#![tactic(auto)]

ghost use Rattle.std.specs.Prelude.{◌≡◌};
ghost use Rattle.settings.specs.Setting.{setting_of, contents_of};

pub mod rewriting;

use refusals::{Fault, Refusal};
use taggedfields::Span;

// The file that has a tag.
#[derive(Clone, Copy, Debug, PartialEq, Eq)]
pub enum Origin {
    Override,
    Default,
}

// Where the contents of a tag stand: in which file, and where in it.
#[derive(Clone, Copy, Debug, PartialEq, Eq)]
pub struct Setting {
    pub origin: Origin,
    pub contents: Span,
}

// Where the contents of a tag stand, in the override or else in the default.
pub fn find_setting(own: &[u8], fallback: &[u8], tag: u32) -> Result<Setting, Fault>
    ensures { result ≡ setting_of own.now fallback.now tag }
{
    let a = taggedfields::look(own, tag)?;
    let b = taggedfields::look(fallback, tag)?;
    match (a, b) {
        (Some(contents), _) => Ok(Setting {
            origin: Origin::Override,
            contents,
        }),
        (None, Some(contents)) => Ok(Setting {
            origin: Origin::Default,
            contents,
        }),
        (None, None) => Err(Refusal::NoSuchField.at(0)),
    }
}

// The contents themselves, a part of the file they came from; an empty part where the lookup is refused.
pub fn lookup<'a>(own: &'a [u8], fallback: &'a [u8], tag: u32) -> &'a [u8]
    ensures { result.now ≡ contents_of own.now fallback.now tag }
{
    match find_setting(own, fallback, tag) {
        Err(_) => &own[0..0],
        Ok(setting) => match setting.origin {
            Origin::Override => setting.contents.of(own),
            Origin::Default => setting.contents.of(fallback),
        },
    }
}
