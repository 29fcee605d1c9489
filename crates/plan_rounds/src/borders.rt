// The borders of a network whose plan is made, with the roads that lead to them.
ghost use Rattle.std.specs.Prelude.{◌≡◌, length};
ghost use Rattle.network.specs.Decode.{decode};
ghost use Rattle.network.specs.Town.{partition_of};
ghost use Rattle.plan.specs.Border.{border_count, Listed};

use toward_node::roads::Roads;

// `nodes` has the borders by rising number.
#[derive(Clone, Copy)]
pub struct Borders<'r, 'n> {
    pub roads: Roads<'r>,
    pub nodes: &'n [u16],
    pub ghost listed: { Listed (partition_of (decode roads.file.now)) nodes.now },
    pub ghost whole: { length nodes.now ≡ border_count (partition_of (decode roads.file.now)) },
}
