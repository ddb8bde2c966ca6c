// Dropping a text that stands over and over at the end (01, module 4).
ghost use Rattle.std.specs.Prelude.{◌<◌, ◌≡◌, length};
ghost use Rattle.meaning.specs.Parts.{less_repeats};

// `s` without every `what` at its end, as Rust's trim_end_matches of a text.
pub(crate) fn trim_end_repeats<'a>(s: &'a [u8], what: &[u8]) -> &'a [u8]
    requires { 0 < length what.now }
    ensures { result.now ≡ less_repeats what.now s.now }
{
    let mut rest = s;
    while let Some(before) = rest.strip_suffix(what) {
        rest = before;
    }
    rest
}
