//! Role authorizations by their places.

ghost use Rattle.std.specs.Prelude.{◌≡◌, ◌<◌, length};
ghost use Rattle.std.specs.List.{HoldsAt};
ghost use Rattle.std.specs.Option.{option_copied};
ghost use Rattle.cat_items.specs.declared.item.Item.TheVariants.{RoleAuth};
ghost use Rattle.cat_items.specs.Ranges.{IsRoleAuthorization};
ghost use Rattle.role_graph.specs.Marked.{HasMark, counts};

use cat_items::{Item, Marks, RoleGrant};

/// The role authorization at a place.
pub fn grant_at(items: &[Item], at: usize) -> &RoleGrant
    requires within { at < length items.now }
    requires grant { HoldsAt IsRoleAuthorization items.now at }
    ensures { HoldsAt (λ x. x ≡ RoleAuth result.now) items.now at }
{
    match &items[at] {
        Item::RoleAuth(grant) => grant.get(),
        _ => unreachable!(),
    }
}

/// Whether the item at a place counts: where there are marks, whether the place is marked. It takes no memory.
pub fn is_counted(marks: Option<&Marks>, at: usize) -> bool
    requires { HasMark at (option_copied marks) }
    ensures { result ≡ counts (option_copied marks.entry) at }
{
    match marks {
        None => true,
        Some(marks) => marks.marked(at),
    }
}
