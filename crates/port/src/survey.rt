// The scan: from hot byte to hot byte up to the content's matching bracket; the keywords' first places are taken on the way.
ghost use Rattle.std.specs.Prelude.{◌≡◌, ◌<◌, Some};
ghost use Rattle.meaning.specs.Parts.{depth};
ghost use Rattle.port.specs.Keys.{Scanned, Contained};

use super::anchors::Hot;
use super::keys::{Places, none_yet, sighted};
use lexis::seek;

// Where a content ends, if it does, and the places in what stands before.
#[derive(Clone, Copy)]
pub struct Scanning {
    pub end: Option<usize>,
    pub places: Places,
}

// How many brackets stand open after the byte `b`, which doesn't close the outer one.
fn deepened(d: usize, b: u8) -> usize
    requires { (d < 18446744073709551615) × ((b ≡ 62) → (d ≡ 0) → ⊥) }
    ensures { depth d b ≡ Some result }
{
    if b == b'<' {
        return d + 1;
    }
    if b == b'>' {
        return d - 1;
    }
    d
}

// Scans `s`, of which a content is the front.
// kept: the place goes on by `seek`, and each keyword is noted by it
pub(crate) fn scan(s: &[u8]) -> Scanning
    ensures { Scanned s.now result }
{
    let mut r = none_yet(s);
    let mut d: usize = 0;
    let mut i = seek(s, 0, Hot);
    while i < s.len() {
        let b = s[i];
        if b == b'>' {
            if d == 0 {
                return Scanning {
                    end: Some(i),
                    places: r,
                };
            }
        }
        d = deepened(d, b);
        r = sighted(s, i, r);
        i = seek(s, i + 1, Hot);
    }
    Scanning {
        end: None,
        places: r,
    }
}

// The same of the content, which ends at its match, or at a final `>`.
pub(crate) fn survey_content(s: &[u8]) -> Scanning
    ensures { Contained s.now result }
{
    let r = scan(s);
    if let Some(_) = r.end {
        return r;
    }
    let n = s.len();
    if n == 0 {
        return r;
    }
    if s[n - 1] == b'>' {
        return Scanning {
            end: Some(n - 1),
            ..r
        };
    }
    r
}
