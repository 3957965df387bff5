// The network's verdict: what a call is turned down for, in document 01's order.
#![tactic(auto)]

ghost use Rattle.std.specs.Prelude.{◌≡◌};
ghost use Rattle.network.specs.Refusal.{refusal_code};

// Why a call is turned down. Document 01, "Turned down": its numbers and places are given by specs/Refusal.antt alone.
#[derive(Clone, Copy)]
pub enum Refusal {
    Nodes,
    Arcs,
    Commodities,
    Precision,
    ShortTable,
    LooseArc(u64),
    Capacity(u64),
    LooseCommodity(u64),
    Layout(u64),
    LongFile,
    FullCount,
    Networks,
    Limit(u64),
    Resources,
    Office,
}

// What the checks of a call come to: nothing is at fault, or why it is turned down.
pub type Verdict = Result<(), Refusal>;

// Document 01's number of a refusal, and its place.
#[derive(Clone, Copy)]
pub struct Code {
    pub number: u64,
    pub place: u64,
}

// A refusal's code: the one place where the code writes these numbers.
impl From<Refusal> for Code {
    ghost from_gives = { λ why code. code ≡ refusal_code why };

    fn from(why: Refusal) -> Code {
        let (number, place) = match why {
            Refusal::Nodes => (1, 0),
            Refusal::Arcs => (2, 0),
            Refusal::Commodities => (3, 0),
            Refusal::Precision => (4, 0),
            Refusal::ShortTable => (5, 0),
            Refusal::LooseArc(arc) => (6, arc),
            Refusal::Capacity(arc) => (7, arc),
            Refusal::LooseCommodity(commodity) => (8, commodity),
            Refusal::Layout(line) => (9, line),
            Refusal::LongFile => (10, 0),
            Refusal::FullCount => (11, 0),
            Refusal::Networks => (13, 0),
            Refusal::Limit(node) => (14, node),
            Refusal::Resources => (15, 0),
            Refusal::Office => (16, 0),
        };
        Code { number, place }
    }
}
