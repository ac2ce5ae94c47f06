//! Laws of straight runs, each the contract of a function that does nothing.

ghost use Rattle.std.specs.Prelude.{◌≡◌, ◌⊎◌, ℕ, suc, ◌+◌, ◌*◌, ◌<◌, ◌≤◌, List, [], ◌∷◌, ◌++◌, map, length, None};
ghost use Rattle.ballots.specs.Messages.{up_to};
ghost use Rattle.ballots.specs.Terms.{Request};
ghost use Rattle.ballots.specs.declared.value.Value.TheVariants.{Request as Of};
ghost use Rattle.paxos.specs.Agreement.{IsRunning, IsTold};
ghost use Rattle.paxos.specs.Application.{Application};
ghost use Rattle.paxos.specs.Examples.{deliveries, request};
ghost use Rattle.paxos.specs.Knowledge.{pair_of};
ghost use Rattle.paxos.specs.Step.{Running};
ghost use Rattle.paxos.specs.World.{World, start, Event, Begin, Deliver, Submits, Choice, told_to, happens, Run};
ghost use Rattle.paxos.specs.Smooth.{AllApplied, AllRun, SmoothRun};
ghost use Rattle.straight_runs.specs.Straight.{opening, opening_sent, closing, closing_sent};

/// A smooth run is one of the protocol. It begins with no event, and goes on by an event at which no store fails, or none that stops
/// a member, and after which each member has applied all that it has learnt without a gap.
pub fn smooth_runs()
    ensures none { (app : Application) (n : ℕ) → SmoothRun app n [] (start n) }
    ensures more { (app : Application) (n : ℕ) (events : List Event) (w : World) (event : Event) (c : Choice)
        → SmoothRun app n events w → (c.fails ≡ None) ⊎ AllRun (happens app w c event) → AllApplied (happens app w c event)
        → SmoothRun app n (events ++ event ∷ []) (happens app w c event) }
    ensures are_runs { (app : Application) (n : ℕ) (events : List Event) (end : World)
        → SmoothRun app n events end → Run app (start n) events end }
{}

/// The events of a straight run, one by one: after `j` deliveries of the opening the next message is `j` + 1, after `j` of the closing
/// it is 2n + `j` + 1.
pub fn straight_events()
    ensures opens { (m : ℕ) → opening m 0 ≡ Begin m ∷ [] }
    ensures opening_goes_on { (m j : ℕ) → opening m (suc j) ≡ opening m j ++ Deliver (suc j) ∷ [] }
    ensures closes { (n m : ℕ) (q : Request) → closing n m q 0 ≡ opening m (2 * n) ++ Submits m q ∷ [] }
    ensures closing_goes_on { (n m : ℕ) (q : Request) (j : ℕ)
        → closing n m q (suc j) ≡ closing n m q j ++ Deliver (2 * n + suc j) ∷ [] }
{}

/// A worked example: the events of the straight run of three members, and how many messages are sent.
pub fn straight_run_of_three()
    ensures events { closing 3 1 request 13 ≡ Begin 1 ∷ deliveries 1 6 ++ Submits 1 request ∷ deliveries 7 13 }
    ensures opening { opening_sent 3 6 ≡ 6 }
    ensures closing { closing_sent 3 13 ≡ 19 }
{}

/// Of n members one begins, and the messages are delivered in the order of their numbers: there are n Prepares and n Promises.
///
/// This holds for every number of members and whichever of them begins. After `j` deliveries a message is left where `j` is below
/// 2n, and none is left after 2n.
pub fn straight_opening()
    ensures sent { (app : Application) (n m j : ℕ) (end : World) → 1 ≤ m → m ≤ n → j ≤ 2 * n
        → SmoothRun app n (opening m j) end → length end.sent ≡ opening_sent n j }
    ensures left { (app : Application) (n m j : ℕ) (end : World) → 1 ≤ m → m ≤ n → j < 2 * n
        → SmoothRun app n (opening m j) end → j < length end.sent }
    ensures all_delivered { (app : Application) (n m : ℕ) (end : World) → 1 ≤ m → m ≤ n
        → SmoothRun app n (opening m (2 * n)) end → length end.sent ≡ 2 * n }
    ensures possible { (app : Application) (n m j : ℕ) → 1 ≤ m → m ≤ n → j ≤ 2 * n
        → (end : World) × SmoothRun app n (opening m j) end }
{}

/// Then a request to which the application keeps no reply is submitted to that member, and all is delivered: n² + 3n + 1 messages
/// are sent in all, each member is told the request at position 1, once, and has applied it.
///
/// This holds for every number of members and whichever of them begins. After `j` deliveries more, so of the messages 1 to 2n + j,
/// a message is left where `j` is below n² + n + 1, and none is left after that many.
pub fn straight_closing()
    ensures sent { (app : Application) (n m : ℕ) (q : Request) (j : ℕ) (end : World) → 1 ≤ m → m ≤ n
        → app.reply [] q.client q.number ≡ None → j ≤ n * n + n + 1
        → SmoothRun app n (closing n m q j) end → length end.sent ≡ closing_sent n j }
    ensures left { (app : Application) (n m : ℕ) (q : Request) (j : ℕ) (end : World) → 1 ≤ m → m ≤ n
        → app.reply [] q.client q.number ≡ None → j < n * n + n + 1
        → SmoothRun app n (closing n m q j) end → 2 * n + j < length end.sent }
    ensures all_delivered { (app : Application) (n m : ℕ) (q : Request) (end : World) → 1 ≤ m → m ≤ n
        → app.reply [] q.client q.number ≡ None
        → SmoothRun app n (closing n m q (n * n + n + 1)) end → length end.sent ≡ n * n + 3 * n + 1 }
    ensures told_once { (app : Application) (n m : ℕ) (q : Request) (end : World) → 1 ≤ m → m ≤ n
        → app.reply [] q.client q.number ≡ None → SmoothRun app n (closing n m q (n * n + n + 1)) end
        → end.told ≡ map (λ k. told_to k (pair_of 1 (Of q))) (up_to n) }
    ensures told { (app : Application) (n m : ℕ) (q : Request) (k : ℕ) (end : World) → 1 ≤ m → m ≤ n → 1 ≤ k → k ≤ n
        → app.reply [] q.client q.number ≡ None → SmoothRun app n (closing n m q (n * n + n + 1)) end
        → IsTold end k 1 (Of q) }
    ensures applied { (app : Application) (n m : ℕ) (q : Request) (k : ℕ) (end : World) → 1 ≤ m → m ≤ n → 1 ≤ k → k ≤ n
        → app.reply [] q.client q.number ≡ None → SmoothRun app n (closing n m q (n * n + n + 1)) end
        → (u : Running) × IsRunning end k u × (u.applied ≡ 1) }
    ensures possible { (app : Application) (n m : ℕ) (q : Request) (j : ℕ) → 1 ≤ m → m ≤ n
        → app.reply [] q.client q.number ≡ None → j ≤ n * n + n + 1
        → (end : World) × SmoothRun app n (closing n m q j) end }
{}
