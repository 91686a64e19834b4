//! What a frame is used for.

ghost use Rattle.std.specs.Prelude.{◌≡◌};
ghost use Rattle.jos_base.specs.SpacesState.{own_count};
ghost use Rattle.jos_space.specs.Frames.{use_of};

/// The use of a frame.
#[derive(Clone, Copy)]
pub(crate) enum Role {
    Reserved,
    /// Free, with its place in the list.
    Free(u32),
    Fresh,
    Page,
    Directory,
    /// The table of this directory's region.
    Table(u32, u32),
}

/// How often a frame counts for its own use.
pub(crate) fn own_count(role: Role) -> u64
    ensures { result ≡ own_count (use_of role) }
{
    match role {
        Role::Reserved | Role::Directory | Role::Table(_, _) => 1,
        Role::Free(_) | Role::Fresh | Role::Page => 0,
    }
}
