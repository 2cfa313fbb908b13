//! Which observers are kept, by name.
ghost use Rattle.std.specs.Prelude.{◌≡◌, filter};
ghost use Rattle.std.specs.List.{list_any};
ghost use Rattle.std.specs.Str.{bytes_eq};

use crate::observers::Observer;
use base_core::Text;

/// Whether a name is one of these.
fn is_one_of(name: &str, names: &[Text]) -> bool
    ensures { result ≡ list_any (bytes_eq name.now) names.now }
{
    names.iter().any(|other| name == other.as_str())
}

fn is_named<O: Observer>(observer: &O, names: &[Text]) -> bool
    ensures { result ≡ list_any (bytes_eq (O.title observer.now)) names.now }
{
    is_one_of(observer.name(), names)
}

/// Takes out the observers whose name isn't one of these. The others stay in their order.
pub fn keep_named<O: Observer>(watch: &mut Vec<O>, names: &[Text])
    ensures { watch.new.items ≡ filter (λ o. list_any (bytes_eq (O.title o)) names.now) watch.old.items }
{
    watch.retain(
        |observer| -> bool
            ensures { result ≡ list_any (bytes_eq (O.title observer.now)) names.entry.now }
        { is_named(observer, names) },
    );
}

/// Whether an observer has this name.
pub fn is_known<O: Observer>(watch: &[O], name: &str) -> bool
    ensures { result ≡ list_any (λ o. bytes_eq (O.title o) name.now) watch.now }
{
    watch.iter().any(|observer| observer.name() == name)
}
