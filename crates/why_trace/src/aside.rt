//! One of a list that is set aside: it stands behind the others, so that they are a part of the list,
//! and goes back to its place without memory.
ghost use Rattle.std.specs.Prelude.{◌≡◌, ◌<◌, List, length};
ghost use Rattle.why_trace.specs.Code.Aside.{IsAside};

/// Brings what stands at a place behind the others. Turns the part of the list from there on.
pub(crate) fn set_aside<T>(items: &mut Vec<T>, place: usize)
    requires { place < length items.old.items }
    ensures aside { IsAside items.old.items place items.new.items }
    ensures as_many { length items.new.items ≡ length items.old.items }
{
    items[place..].rotate_left(1);
}

/// Brings what was set aside back to its place.
pub(crate) fn set_back<T>(items: &mut Vec<T>, place: usize)
    requires { place < length items.old.items }
    ensures { (whole : List T) → IsAside whole place items.old.items → items.new.items ≡ whole }
{
    items[place..].rotate_right(1);
}
