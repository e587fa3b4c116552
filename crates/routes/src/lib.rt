// The theory of routes: each function states theorems, proved of every cost kind and every site that keeps the rules.
#![tactic(auto)]

ghost use Rattle.routes.specs.Theorems.{DistanceExists, DistanceUnique, DistanceInfiniteWithoutRoute, DistanceSumsSegments, DistanceWithin};
ghost use Rattle.routes.specs.Theorems.{SoundAtMostDistance, SoundAtMostRoute, HintAtMostDistance};
ghost use Rattle.routes.specs.Theorems.{OpenIsSound, AlterKeepsSound, RetargetKeepsSound, SearchKeepsSound};
ghost use Rattle.routes.specs.Theorems.{SettingKeepsRules};
ghost use Rattle.routes.specs.Theorems.{AlterConsistent, AlterWithin, AlterNotAbove, AlterGreatest, AlterUnchanged};
ghost use Rattle.routes.specs.Theorems.{RelaxationStart, RelaxationTurn, RelaxationEnd};
ghost use Rattle.routes.specs.Theorems.{SearchStart, SearchTakes, SearchTurn, OpeningTurn, SearchAnswerAtTarget, SearchNone, SearchKept};
ghost use Rattle.routes.specs.Theorems.{LinksTurn, LinksRoute, SearchFound, SearchExhausted};

use cost::{Cost, PositiveCost};

// The distance is the least cost of a route, and a sum of few segment costs.
pub fn distances_are_least_costs<C: Cost>()
    ensures exists { DistanceExists C.Cost.kind }
    ensures unique { DistanceUnique C.Cost.kind }
    ensures infinite { DistanceInfiniteWithoutRoute C.Cost.kind }
    ensures segments { DistanceSumsSegments C.Cost.kind }
    ensures within { DistanceWithin C.Cost.kind }
{}

// Sound estimates never exceed what is left to go.
pub fn sound_estimates_are_lower_bounds<C: Cost>()
    ensures distance { SoundAtMostDistance C.Cost.kind }
    ensures route { SoundAtMostRoute C.Cost.kind }
    ensures hint { HintAtMostDistance C.Cost.kind }
{}

// Each call leaves estimates that are sound and not under the hint.
pub fn calls_keep_estimates_sound<C: Cost>()
    ensures opens { OpenIsSound C.Cost.kind }
    ensures alters { AlterKeepsSound C.Cost.kind }
    ensures retargets { RetargetKeepsSound C.Cost.kind }
    ensures searches { SearchKeepsSound C.Cost.kind }
{}

// Setting a segment to what is allowed keeps the rules of the site.
pub fn setting_keeps_rules<C: Cost>()
    ensures { SettingKeepsRules C.Cost.kind }
{}

// The estimates after alter are the greatest that suit the changed site and are not above the old.
pub fn altered_estimates_are_greatest<C: Cost>()
    ensures consistent { AlterConsistent C.Cost.kind }
    ensures within { AlterWithin C.Cost.kind }
    ensures bounded { AlterNotAbove C.Cost.kind }
    ensures greatest { AlterGreatest C.Cost.kind }
    ensures unchanged { AlterUnchanged C.Cost.kind }
{}

// Relaxation in any order comes to the estimates after alter.
pub fn relaxation_reaches_altered_estimates<C: Cost>()
    ensures starts { RelaxationStart C.Cost.kind }
    ensures turns { RelaxationTurn C.Cost.kind }
    ensures ends { RelaxationEnd C.Cost.kind }
{}

// A search in the order of distance plus estimate takes each place at its distance.
pub fn search_takes_places_at_their_distance<C: Cost>()
    ensures starts { SearchStart C.Cost.kind }
    ensures takes { SearchTakes C.Cost.kind }
    ensures turns { SearchTurn C.Cost.kind }
    ensures opening { OpeningTurn C.Cost.kind }
    ensures links { LinksTurn C.Cost.kind }
    ensures answer { SearchAnswerAtTarget C.Cost.kind }
    ensures unreached { SearchNone C.Cost.kind }
    ensures kept { SearchKept C.Cost.kind }
{}

// Where every segment costs more than zero, the links lead back to the start, and the search leaves a cheapest route.
pub fn search_leaves_a_cheapest_route<C: PositiveCost>()
    ensures links { LinksRoute C.Cost.kind }
    ensures found { SearchFound C.Cost.kind }
    ensures exhausted { SearchExhausted C.Cost.kind }
{}
