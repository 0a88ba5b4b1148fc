ghost use Rattle.std.specs.Prelude.{◌≡◌, ℕ, List};
ghost use Rattle.walk.specs.Kinds.{Kind};
ghost use Rattle.walk.specs.Fans.{fan};

/// A kind of search: what its items are, and what the walk asks about them.
///
/// Items come in fans, so that what the items of a fan share is computed once: a set of heads, as a 32-bit set, and a
/// base item into which each head is put, ascending. The ghost member `kind` says all that the walk asks; `fit` and
/// `misses` are what the promises of the walk speak of. Nothing is owed of them here: the promises that need facts
/// have them as their premise.
pub trait Search: Sized {
    /// What the walk stores: small, and copied.
    type Item: Copy + Drop;

    /// All that the walk asks: starts, successors, the three tests and the number of commands.
    ghost kind: { Self → Kind Self.Item };

    /// The item with a head put into it.
    ghost with: { Self → Self.Item → ℕ → Self.Item };

    /// The items of which the facts of a search are shown.
    ghost fit: { Self → Self.Item → Type 0 };

    /// The runs that an item misses.
    ghost misses: { Self → Self.Item → List ℕ → Type 0 };

    /// The number of commands: they are 0 up to it.
    fn commands(&self) -> u8
        ensures { result ≡ (kind self.now).commands };

    /// The items from which the walk starts, as heads and a base.
    fn starts(&self) -> (u32, Self::Item)
        ensures { (kind self.now).starts ≡ fan (with self.now) result.0 result.1 };

    /// The successors of an item under a command, as heads and a base.
    fn successors(&self, item: Self::Item, command: u8) -> (u32, Self::Item)
        ensures { (kind self.now).successors item command ≡ fan (with self.now) result.0 result.1 };

    /// The base with a head put into it.
    fn put(&self, base: Self::Item, head: u8) -> Self::Item
        ensures { result ≡ with self.now base head };

    /// Whether the item misses the empty run.
    fn hit(&self, item: Self::Item) -> bool
        ensures { result ≡ (kind self.now).hit item };

    /// Whether the item is known to miss no run at all.
    fn hopeless(&self, item: Self::Item) -> bool
        ensures { result ≡ (kind self.now).hopeless item };

    /// Whether the first item is known to miss every run that the second misses.
    fn covers(&self, item: Self::Item, other: Self::Item) -> bool
        ensures { result ≡ (kind self.now).covers item other };
}
