// The array behind it, in a struct of its own as the kit's ArrayVec has it.
#[derive(Clone, Copy, Drop)]
pub(crate) struct Cells<T, const N: usize> {
    pub(crate) xs: [T; N],
}
