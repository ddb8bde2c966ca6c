// The bytes by which keywords and brackets are known.
ghost use Rattle.std.specs.Prelude.{◌&&◌, ◌≡◌, leb};
ghost use Rattle.port.specs.Seen.{hot};

use lexis::Pattern;

// `<`, `=`, `>`, and the `g` of `padding`.
#[derive(Clone, Copy)]
pub(crate) struct Hot;

impl Pattern for Hot {
    ghost matches = { λ _. hot };

    fn matches(self, b: u8) -> bool {
        let v = folded(b);
        (b'<' <= v) & (v <= b'>')
    }
}

// `g` as `<`, any other byte as it is: one range then has all hot bytes, which a machine tests in one step.
fn folded(b: u8) -> u8
    ensures { leb 60 result && leb result 62 ≡ hot b }
{
    if b == b'g' { b'<' } else { b }
}
