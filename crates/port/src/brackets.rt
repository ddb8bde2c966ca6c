// Bracket cutting (01, module 3).
ghost use Rattle.port.specs.Carried.{Told};

use super::keys::Places;
use super::survey::survey_content;

// The content of a form that applies, and the first places of the keywords in it.
#[derive(Clone, Copy)]
pub(crate) struct Content<'a> {
    pub(crate) inner: &'a [u8],
    pub(crate) places: Places,
}

// The part between the prefix and the matching bracket, if the form that opens with `prefix` applies to `s`. It is scanned here, once.
pub(crate) fn strip_prefix_suffix<'a>(s: &'a [u8], prefix: &[u8]) -> Option<Content<'a>>
    ensures { Told prefix.now s.now result }
{
    if !lexis::begins(s, prefix) {
        return None;
    }
    let t = &s[prefix.len()..];
    let r = survey_content(t);
    let n = r.end?;
    Some(Content {
        inner: &t[..n],
        places: r.places,
    })
}
