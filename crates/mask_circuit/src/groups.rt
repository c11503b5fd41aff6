//! A named group of inputs or outputs.

ghost use Rattle.std.specs.Prelude.{◌≡◌, ◌≤◌, length, IfOk};

use arrayvec::ArrayString;
use std::alloc::{AllocError, Global};
use std::marker::Model;

/// So many inputs or outputs in a row, under a name.
#[derive(Drop)]
pub struct Group {
    /// 1 to 16 of the characters `a` to `z`, `0` to `9` and `-`, beginning with a letter.
    pub name: ArrayString<16>,
    /// How many, at least 1.
    pub size: u32,
}

impl Model for Group {
    ghost use Rattle.mask_circuit.specs.Labels.{NamedGroup};

    ghost Value = { NamedGroup };

    ghost view = { λ g. record { name = g.name.bytes; size = g.size } };
}

impl Group {
    ghost use Rattle.mask_circuit.specs.Labels.{one_group};

    /// One group of all of so many, and none where there are none.
    pub fn covering(alloc: Global, name: &str, size: u32) -> Result<Vec<Group>, AllocError>
        requires { length name.now ≤ 16 }
        ensures { IfOk result (λ groups. groups.items ≡ one_group name.now size) }
    {
        let mut groups = Vec::new(alloc);
        if size > 0 {
            let mut text = ArrayString::new();
            text.push_str(name);
            groups.push(Group { name: text, size })?;
        }
        Ok(groups)
    }
}
