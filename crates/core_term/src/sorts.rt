//! Sorts, their order, and the sort of a product.
ghost use Rattle.std.specs.Prelude.{◌≡◌};
ghost use Rattle.core_term.specs.Sorts.{sort_below, sort_of_product};

/// The sorts of types: propositions, small types, and the levels of `Type`, from 1 to 1000.
#[derive(Clone, Copy, Debug, PartialEq, Eq)]
pub enum Sort {
    PropSort,
    SetSort,
    TypeSort(u16),
}

/// The sort of a product, from the sorts of its domain and its codomain.
pub fn product_sort(a: Sort, b: Sort) -> Sort
    ensures { result ≡ sort_of_product a b }
{
    match b {
        Sort::PropSort => Sort::PropSort,
        _ if sort_le(a, b) => b,
        _ => a,
    }
}

/// Whether each type of the first sort is one of the second too.
pub fn sort_le(a: Sort, b: Sort) -> bool
    ensures { result ≡ sort_below a b }
{
    match (a, b) {
        (Sort::PropSort, _) => true,
        (Sort::SetSort, b) => b != Sort::PropSort,
        (Sort::TypeSort(i), Sort::TypeSort(j)) => i <= j,
        (Sort::TypeSort(_), _) => false,
    }
}
