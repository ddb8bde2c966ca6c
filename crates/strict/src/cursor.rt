// What a reader answers: a value and the place after it, or the place where no text can go on. It is three words long, and a call hands it on
// through memory: what is read most often is `#[inline(always)]`.

// A value, and the place after it.
#[derive(Clone, Copy)]
pub(crate) struct Read<T> {
    pub(crate) value: T,
    pub(crate) end: usize,
}

// The place where the text goes on with none of what may stand there.
#[derive(Clone, Copy)]
pub(crate) struct Stuck {
    pub(crate) at: usize,
}
