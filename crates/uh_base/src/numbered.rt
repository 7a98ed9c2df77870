//! Items that are kept by rising numbers.
#![tactic(auto)]

ghost use Rattle.std.specs.Prelude.{◌≡◌, ◌==◌, ℕ, position};
ghost use Rattle.uh_base.specs.Numbered.{Rise};

/// An item with a number.
pub trait Numbered {
    /// Its number.
    ghost number: { Self → ℕ };

    /// Its number.
    fn number(&self) -> u64
        ensures { result ≡ number self.now };
}

/// The place of the item of a number among items whose numbers rise.
pub fn place_of<T: Numbered>(items: &[T], number: u64) -> Option<usize>
    requires { Rise T.number items.now }
    ensures { result ≡ position (λ item. T.number item == number) items.now }
{
    match items.binary_search_by_key(&number, |item| item.number()) {
        Ok(place) => Some(place),
        Err(_) => None,
    }
}
