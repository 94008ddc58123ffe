//! Items by their names.
ghost use Rattle.std.specs.Prelude.{◌≡◌, ℕ, List, map, bytes_eq, position};
ghost use Rattle.std.specs.List.{list_any};
ghost use Rattle.hol_registry.specs.Again.{FindsAgain};

/// What has a name.
pub(crate) trait Named {
    ghost name_of: { Self → List ℕ };

    fn name(&self) -> &str
        ensures { result.now ≡ name_of self.now };
}

/// The index of the first item of the name.
pub(crate) fn find<T: Named>(items: &[T], name: &str) -> Option<usize>
    ensures { result ≡ position (λ item. bytes_eq (T.name_of item) name.now) items.now }
{
    items.iter().position(|item| item.name() == name)
}

/// The index of the first item whose name one before it has.
pub(crate) fn first_again<T: Named>(items: &[T]) -> Option<usize>
    ensures { FindsAgain (map T.name_of items.now) result }
{
    for i in 0..items.len() {
        if stands(&items[..i], items[i].name()) {
            return Some(i);
        }
    }
    None
}

// Whether an item has the name.
fn stands<T: Named>(items: &[T], name: &str) -> bool
    ensures { result ≡ list_any (λ item. bytes_eq (T.name_of item) name.now) items.now }
{
    items.iter().any(|item| item.name() == name)
}
