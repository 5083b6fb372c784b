//! The list `orders (places n)` contains each order of the places 1, .., n, that is, each
//! permutation of them, exactly once.

ghost use Rattle.std.specs.Prelude.{◌≡◌, ℕ, ◌↔◌, List, length};
ghost use Rattle.sym_model.specs.Sum.{Among, Once, Within};
ghost use Rattle.sym_model.specs.PlaceOrders.{orders, places};

/// The members of `orders (places n)` are the lists of n entries in which each place from 1 to n
/// occurs; no list occurs twice in `orders (places n)`.
pub fn place_orders_law()
    ensures members { (n : ℕ) (w : List ℕ)
        → (Among w (orders (places n)) ↔ ((length w ≡ n) × Within (places n) w)) }
    ensures once { (n : ℕ) → Once (orders (places n)) }
{}
