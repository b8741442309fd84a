//! Values that can be neither copied nor dropped are spent.
use crate::Extent;

/// A value that can be neither copied nor dropped, but spent.
pub trait Discard {
    /// Spends it.
    fn discard(self);
}

impl Discard for Extent {
    fn discard(self) {
        let _ = self.close();
    }
}

impl<T: Discard> Discard for Option<T> {
    fn discard(self) {
        match self {
            None => {}
            Some(value) => value.discard(),
        }
    }
}

impl<T: Discard> Discard for Vec<T> {
    fn discard(self) {
        discard_all(self);
    }
}

/// Spends a list, and all that is in it.
pub fn discard_all<T: Discard>(list: Vec<T>) {
    let mut rest = list;
    while let Some(value) = rest.pop() {
        value.discard();
    }
    rest.destroy_empty();
}
