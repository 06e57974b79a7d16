//! The least id of the attached hosts that show a key, where more than one shows it.

ghost use Rattle.std.specs.Prelude.{◌≡◌, slice_get};
ghost use Rattle.lx_host.specs.Html.{first_tree};
ghost use Rattle.lx_host.specs.Least.{passing, shows_attached};
ghost use Rattle.lx_host.specs.Lookups.{lesser, host_of};

use crate::grove::Grove;
use lx_node::Key;

/// The lesser of two numbers, where there are.
fn lesser_of(a: Option<u32>, b: Option<u32>) -> Option<u32>
    ensures { result ≡ lesser a b }
{
    match (a, b) {
        (None, b) => b,
        (a, None) => a,
        (Some(a), Some(b)) => Some(a.min(b)),
    }
}

/// The id at a place of the table, where the host there is attached and shows the key.
fn shown_at(grove: &Grove, place: usize, key: Key) -> Option<u32>
    ensures { result ≡ passing (shows_attached key grove.now.hosts) (slice_get grove.now.ids place) }
{
    let Some(id) = grove.id_at(place) else {
        return None;
    };
    if grove.shows(id, key) && grove.is_within(0, id) {
        Some(id)
    } else {
        None
    }
}

/// The least id of the hosts that show the key, among host 0 and all below it. It looks at each host.
pub fn least_shown(grove: &Grove, key: Key) -> Option<u32>
    ensures { result ≡ host_of key (first_tree grove.now.hosts) }
{
    grove.in_order();
    let mut least = None;
    for place in 0..grove.len() {
        let own = shown_at(grove, place, key);
        least = lesser_of(least, own);
    }
    least
}
