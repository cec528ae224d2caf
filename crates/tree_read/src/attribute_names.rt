// The attributes of an element, one after the other.

ghost use Rattle.std.specs.Prelude.{◌≡◌};
ghost use Rattle.tree_read.specs.AttributeNames.{attribute_names};
ghost use Rattle.tree_read.specs.Views.{tree_of};

use crate::at::At;
use saml_tree::Name;
use std::marker::Model;

/// The names of the attributes of an element that are left, in written order, declarations of namespaces with them.
#[derive(Drop)]
pub struct AttributeNames<'d, 'a> {
    at: At<'d, 'a>,
    next: usize,
    count: usize,
}

impl<'d, 'a> Model for AttributeNames<'d, 'a> {
    ghost use Rattle.std.specs.Prelude.{◌≡◌, ◌≤◌, List, length, drop};
    ghost use Rattle.saml_tree.specs.NodeNames.{ShownName};
    ghost use Rattle.tree_read.specs.AttributeNames.{attribute_names};
    ghost use Rattle.tree_read.specs.Views.{tree_of};

    ghost Value = { List ShownName };

    ghost view = { λ w. drop w.next (attribute_names (tree_of w.at) w.at.node.0) };

    ghost invariant = { λ w. (w.count ≡ length (attribute_names (tree_of w.at) w.at.node.0)) × (w.next ≤ w.count) };
}

impl<'d, 'a> AttributeNames<'d, 'a> {
    /// All the attributes of an element.
    pub fn of(at: At<'d, 'a>) -> AttributeNames<'d, 'a>
        ensures { result ≡ attribute_names (tree_of at.entry) at.entry.node.0 }
    {
        AttributeNames {
            at,
            next: 0,
            count: at.doc.attr_count(at.node),
        }
    }
}

impl<'d, 'a> Iterator for AttributeNames<'d, 'a> {
    type Item = Name<'d>;

    ghost use Rattle.std.specs.Iterator.{YieldsFirstBy, item_count};
    ghost use Rattle.saml_tree.specs.Views.{name_view};

    ghost next_gives = { YieldsFirstBy name_view (λ w. w) };

    ghost remaining = { item_count (λ w. w) };

    /// The name of the next one.
    fn next(&mut self) -> Option<Name<'d>> {
        if self.next == self.count {
            return None;
        }
        let name = self.at.doc.attr_name(self.at.node, self.next);
        self.next += 1;
        Some(name)
    }
}
