//! Listers, which give the items of a list one at a time.
ghost use Rattle.std.specs.Prelude.{◌≡◌, ◌++◌, ◌↔◌, ℕ, List, [], Some, IsTrue, IsSome, Option};
ghost use Rattle.std.specs.Option.{option_to_list};
ghost use Rattle.std.specs.Bool.{OnFalse};

/// A list whose items, each a list of numbers, are given one at a time, without allocating memory.
/// A new lister has no current item.
pub trait Lister {
    /// The items after the current one, which calls of `advance` are still to give.
    ghost rest: { Self → List (List ℕ) };

    /// The current item, if there is one.
    ghost item: { Self → Option (List ℕ) };

    /// Makes the next item the current one. Returns false if and only if there was no further item;
    /// then there is no current item.
    fn advance(&mut self) -> bool
        ensures next { rest self.old ≡ option_to_list (item self.new) ++ rest self.new }
        ensures found { IsTrue result ↔ IsSome (item self.new) }
        ensures ended { OnFalse result (rest self.old ≡ []) };

    /// The current item.
    fn current(&self) -> &[u16]
        requires { IsSome (item self.now) }
        ensures { item self.now ≡ Some result.now };
}
