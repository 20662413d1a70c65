ghost use Rattle.std.specs.Prelude.{◌≡◌, drop};
ghost use Rattle.gx_base.specs.declared.acts.Act.TheVariants as acts;
ghost use Rattle.session_cases.specs.Scripts.{act_within, act_of, script_start};

use commit_book::Operator;
use gx_base::{Act, Item, Reply};

/// An operator whose bodies are written down. `k0` of an item says where its acts begin in the list; they go on to the
/// next `Done`, and take no notice of replies.
#[derive(Drop)]
pub struct Scripts {
    rooms: u32,
    acts: Vec<Act>,
}

/// Where a body stands in the list.
#[derive(Clone, Copy, Debug, PartialEq, Eq, Drop)]
pub struct ScriptPlace {
    at: usize,
}

impl Scripts {
    pub fn new(rooms: u32, acts: Vec<Act>) -> Scripts
        ensures rooms { result.rooms ≡ rooms }
        ensures acts { result.acts.items ≡ acts.items }
    {
        Scripts { rooms, acts }
    }

    fn start(&self, item: Item) -> usize
        ensures { result ≡ script_start self.now.acts.items item.k0 }
    {
        if item.k0 < 0 {
            self.acts.len()
        } else {
            item.k0 as usize
        }
    }

    fn act_at(&self, at: usize) -> Act
        ensures { result ≡ act_of self.now.rooms (drop at self.now.acts.items) }
    {
        match self.acts.get(at) {
            Some(act) => self.within(*act),
            None => Act::Done,
        }
    }

    // A call past the rooms is an end.
    fn within(&self, act: Act) -> Act
        ensures { result ≡ act_within self.now.rooms act }
    {
        match act {
            Act::Call { room, .. } if room >= self.rooms => Act::Done,
            _ => act,
        }
    }
}

impl Operator for Scripts {
    type St = ScriptPlace;

    ghost use Rattle.std.specs.Prelude.{false};
    ghost use Rattle.session_cases.specs.Scripts.{script_plan, script_rest, script_acts_left};

    ghost is_ordered = { λ _. false };

    ghost room_count = { λ scripts. scripts.rooms };

    ghost plan = { λ scripts item. script_plan scripts.rooms (drop (script_start scripts.acts.items item.k0) scripts.acts.items) };

    ghost rest = { λ scripts place last. script_rest scripts.rooms scripts.acts.items place.at last };

    ghost to_go = { λ scripts place. script_acts_left scripts.acts.items place.at };

    fn rooms(&self) -> u32 {
        self.rooms
    }

    fn ordered(&self) -> bool {
        false
    }

    fn begin(&self, item: Item) -> ScriptPlace {
        ScriptPlace {
            at: self.start(item),
        }
    }

    fn next(&self, place: &mut ScriptPlace, _last: Option<Reply>) -> Act {
        let act = self.act_at(place.at);
        place.at = place.at.saturating_add(1);
        act
    }

    fn left(&self, place: &ScriptPlace) -> u64 {
        self.acts.len().saturating_sub(place.at) as u64
    }
}
