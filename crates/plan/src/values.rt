ghost use Rattle.std.specs.Prelude.{◌≡◌, ◌≤◌, [], length, take};

/// The values that a refusal brings, at most four.
#[derive(Clone, Copy, Debug, PartialEq, Eq, PartialOrd, Ord, Hash)]
pub struct Values {
    // Stays: an array and a count, since `ArrayVec` is not `Copy`, which callers may rest on.
    room: [usize; 4],
    count: usize,
    ghost few: { count ≤ 4 },
}

impl Values {
    /// These values, in this order.
    pub(crate) fn of(values: &[usize]) -> Values
        requires { length values.now ≤ 4 }
        ensures { take result.count result.room ≡ values.now }
    {
        let count = values.len();
        let mut room = [0; 4];
        room[..count].copy_from_slice(values);
        Values { room, count }
    }

    /// The values, in the order in which they are reported.
    pub fn as_slice(&self) -> &[usize]
        ensures { result.now ≡ take self.now.count self.now.room }
    {
        &self.room[..self.count]
    }
}

/// No values.
impl Default for Values {
    ghost is_default = { λ v. take v.count v.room ≡ [] };

    fn default() -> Self {
        Values {
            room: [0; 4],
            count: 0,
        }
    }
}
