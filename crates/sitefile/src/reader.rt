ghost use Rattle.std.specs.Prelude.{◌+◌, ◌^◌, ◌<◌, length};

// A lent file that is walked front to back: the bytes not read yet, and the position where they begin.
// Each step says by itself that the file's size stays: no field has it, since it is what `at` and the length of `left` add up to.
#[derive(Clone, Copy)]
pub struct Reader<'a> {
    pub(crate) left: &'a [u8],
    pub(crate) at: usize,
    ghost fits: { at + length left.now < 2 ^ 64 },
}
