// One node of a list.
ghost use Rattle.std.specs.Prelude.{◌≡◌, ⊤};

use std::alloc::AllocError;

// Where a node lies. It owns nothing.
pub(crate) struct Place<T> {
    pub(crate) ptr: *mut Node<T>,
}

impl<T> Clone for Place<T> {
    ghost is_clone = { λ x y. y ≡ x };

    ghost is_infallible = { λ _. ⊤ };

    fn clone(&self) -> Result<Place<T>, AllocError> {
        Ok(*self)
    }
}

impl<T> Copy for Place<T> {}

// `next` of the last node means nothing.
#[derive(Drop)]
pub(crate) struct Node<T> {
    pub(crate) next: Place<T>,
    pub(crate) item: T,
}
