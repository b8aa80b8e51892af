//! Where each thread of a state stands, over all of its homes. A law of every state; there is nothing to run.

ghost use Rattle.std.specs.Prelude.{◌≡◌, ℕ, ◌<◌, ◌≤◌, List, Option, length};
ghost use Rattle.sd_state.specs.declared.states.State.{State as StateOf};
ghost use Rattle.sd_state.specs.States.{thread_of};
ghost use Rattle.sd_homes.specs.Standing.{list_of};
ghost use Rattle.sd_homes.specs.declared.home.Home.{Home as HomeOf};
ghost use Rattle.sd_homes.specs.Numbers.{IsListOf};
ghost use Rattle.sd_hand.specs.OneHome.{AreAllHomes, lists_with};

/// Where all homes of a state stand for it, each of its threads whose place is there stands in one list of one of them: none is
/// lost between the homes, and none stands twice. A number that is no thread's stands in none.
pub fn each_thread_stands_in_one_list()
    ensures once { (n : ℕ) (s : StateOf) (homes : List (Option HomeOf)) (t : ℕ) → AreAllHomes n s homes → t < length s.threads → IsListOf s (list_of (thread_of s t)) → lists_with t homes ≡ 1 }
    ensures nobody { (n : ℕ) (s : StateOf) (homes : List (Option HomeOf)) (t : ℕ) → AreAllHomes n s homes → length s.threads ≤ t → lists_with t homes ≡ 0 }
{}
