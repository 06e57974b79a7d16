//! What commands share that go by the selection: the block, the frame and the lines of a node, the way up from it, the order
//! of points, the nodes between two of them, where what a node has begins, the range that a command needs, and the caret. All
//! but the caret is read from a draft, and nothing is changed. Points count children in an element, and UTF-16 code units in
//! a text or tab.
#![tactic(auto)]

mod blocks;
mod children;
mod kinds;
mod lines;
mod making;
mod places;
mod ranges;
mod readiness;
mod starts;
mod walks;
mod ways;

pub use blocks::{block, cell_from, frame, is_line, leading, outer_block, same_node};
pub use children::children_from;
pub use kinds::{
    has_characters_at, is_element_at, is_inline_at, is_item_at, is_link_at, is_rule_or_table_at,
    is_text_at,
};
pub use lines::selected_lines;
pub use making::{make_like, node_at};
pub use places::{children_before, comes_first};
pub use ranges::{
    Ranged, in_order, is_collapsed, is_normal_at, no_range, normal_at, place_caret, range_of,
    shown_range,
};
pub use readiness::ready;
pub use starts::start_within;
pub use walks::{
    covered, first_behind, last_before, last_within, outermost, previous_in_tree, walk_until,
};
pub use ways::{WayUp, upward};
