// The components of a path.
ghost use Rattle.std.specs.Prelude.{◌≡◌, ◌≤◌, ◌<◌, ◌+◌, [], ◌∷◌, length, IfSome, IfNone};
ghost use Rattle.lilo_model.specs.MinixFind.{components};
ghost use Rattle.minix_tree.specs.Component.{slashes, name_length, component_view, HasNoZero, IsFileName};

/// A component of a path, and the text after it.
#[derive(Clone, Copy)]
pub struct Component<'t> {
    pub name: &'t [u8],
    pub rest: &'t [u8],
}

/// How many slashes are at the start of a text.
fn slashes(text: &[u8]) -> usize
    ensures value { result ≡ slashes text.now }
    ensures within { result ≤ length text.now }
{
    text.iter().take_while(|byte| **byte == b'/').count()
}

/// How many bytes come before the first slash.
fn name_length(text: &[u8]) -> usize
    ensures value { result ≡ name_length text.now }
    ensures within { result ≤ length text.now }
{
    text.iter().take_while(|byte| **byte != b'/').count()
}

/// The first component of a text, and the text after it; nothing where the text has only slashes.
#[tactic(auto, using(crate::proofs::ComponentLemmas::first_none, crate::proofs::ComponentLemmas::first_some))]
pub fn first_component(text: &[u8]) -> Option<Component<'_>>
    ensures none { IfNone result (components text.now ≡ []) }
    ensures some { IfSome result (λ first. components text.now ≡ component_view first ∷ components first.rest.now) }
    ensures within { IfSome result (λ first. length first.name.now + length first.rest.now ≤ length text.now) }
    ensures shorter { IfSome result (λ first. length first.rest.now < length text.now) }
    ensures name { HasNoZero text.now → IfSome result (λ first. IsFileName first.name.now) }
    ensures rest { HasNoZero text.now → IfSome result (λ first. HasNoZero first.rest.now) }
{
    let (_, text) = text.split_at(slashes(text));
    let length = name_length(text);
    if length == 0 {
        return None;
    }
    let (name, rest) = text.split_at(length);
    Some(Component { name, rest })
}
