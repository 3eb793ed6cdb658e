// What a case lends of an array.

// The first `len` numbers of an array are lent, or all where it has no more.
#[derive(Clone, Copy)]
pub struct Lent<T, const CAP: usize> {
    numbers: [T; CAP],
    len: usize,
}

impl<T: Copy + Default, const CAP: usize> Lent<T, CAP> {
    // Lends these numbers, or as many of them as the array holds.
    pub(crate) fn of(items: &[T]) -> Self {
        let mut numbers: [T; CAP] = Default::default();
        for (number, item) in numbers.iter_mut().zip(items) {
            *number = *item;
        }
        Lent {
            numbers,
            len: items.len().min(CAP),
        }
    }

    pub(crate) fn as_slice(&self) -> &[T] {
        &self.numbers[..self.len.min(CAP)]
    }

    // Makes number i of those that are lent x.
    pub(crate) fn put(&mut self, i: usize, x: T) {
        if i < self.len.min(CAP) {
            self.numbers[i] = x;
        }
    }

    // Lends n numbers at most.
    pub(crate) fn truncate(&mut self, n: usize) {
        self.len = self.len.min(n);
    }

    // Lends n numbers, or as many as the array holds, with zeros past those that were lent.
    pub(crate) fn resize(&mut self, n: usize) {
        let n = n.min(CAP);
        for i in self.len..n {
            self.numbers[i] = T::default();
        }
        self.len = n;
    }
}
