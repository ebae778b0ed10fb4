//! Laws of the list of a board's actions.
ghost use Rattle.std.specs.Prelude.{◌≡◌, ◌≤◌, ◌<◌, ◌+◌, ℕ, List, [], Option};
ghost use Rattle.plain_cord.specs.declared.deed.Deed.{Deed as Deed_value};
ghost use Rattle.plain_cord.specs.Deeds.{cells_after, IsLegal, of_session, empty_cells};
ghost use Rattle.board_weights.specs.Weights.{weigh_cells, weigh_came, weigh_left, weigh_deeds, sum_below, Accounts};

/// What came to the cells is what left them and what the actions leave in them.
pub fn boards_lose_no_item<C>()
    ensures from_any { (h : C → ℕ) (cs : List (Option C)) (log : List (Deed_value C)) → IsLegal cs log
        → weigh_cells h cs + weigh_came h log ≡ weigh_left h log + weigh_cells h (cells_after cs log) }
    ensures from_empty { (h : C → ℕ) (log : List (Deed_value C)) → IsLegal empty_cells log
        → weigh_came h log ≡ weigh_left h log + weigh_cells h (cells_after empty_cells log) }
{}

/// Where no session from the n-th on acted, the weights of the sessions' actions add up to that of all.
pub fn sessions_share_the_log<C>()
    ensures { (g : Deed_value C → ℕ) (n : ℕ) (log : List (Deed_value C)) → ((p : ℕ) → n ≤ p → of_session p log ≡ [])
        → weigh_deeds g log ≡ sum_below n (λ p. weigh_deeds g (of_session p log)) }
{}

/// Where of each session what it made and got is what it ended and handed in, all together made what they ended, and what still
/// lies on the board.
pub fn all_passes_end<C>()
    ensures { (h : C → ℕ) (n : ℕ) (log : List (Deed_value C)) (made ended : ℕ → ℕ) → IsLegal empty_cells log
        → ((p : ℕ) → n ≤ p → of_session p log ≡ [])
        → ((p : ℕ) → p < n → Accounts h (made p) (ended p) (of_session p log))
        → sum_below n made ≡ sum_below n ended + weigh_cells h (cells_after empty_cells log) }
{}
