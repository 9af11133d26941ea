// The last component of a path.
ghost use Rattle.std.specs.Prelude.{◌≡◌, ◌≤◌, length, IfSome};
ghost use Rattle.lilo_model.specs.MinixFind.{components};
ghost use Rattle.lilo_model.specs.NamePlaces.{split_at_last};
ghost use Rattle.minix_tree.specs.Component.{HasNoZero, IsFileName};
ghost use Rattle.minix_names.specs.Component.{split_view};

use minix_tree::first_component;

/// How many components a text has.
pub(crate) fn count_components(text: &[u8]) -> u16
    requires { length text.now ≤ 1024 }
    ensures { result ≡ length (components text.now) }
{
    let mut rest = text;
    let mut count = 0;
    while let Some(component) = first_component(rest) {
        rest = component.rest;
        count += 1;
    }
    count
}

/// A path before its last component, and that component.
#[derive(Clone, Copy)]
pub(crate) struct Split<'t> {
    pub(crate) before: &'t [u8],
    pub(crate) name: &'t [u8],
}

/// A path cut before its last component, if it has one; slashes at its end don't count.
pub(crate) fn split_at_last(path: &[u8]) -> Option<Split<'_>>
    ensures split { split_view result ≡ split_at_last path.now (components path.now) }
    ensures name { HasNoZero path.now → IfSome result (λ split. IsFileName split.name.now) }
{
    let Some(first) = first_component(path) else {
        return None;
    };
    let mut last = first;
    while let Some(next) = first_component(last.rest) {
        last = next;
    }
    let before = path.len() - last.name.len() - last.rest.len();
    Some(Split {
        before: &path[..before],
        name: last.name,
    })
}
