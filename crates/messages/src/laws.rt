//! Laws, each the contract of a function that does nothing.

ghost use Rattle.std.specs.Prelude.{◌≡◌, ◌≤◌, ℕ, List, [], ◌++◌, length};
ghost use Rattle.ballots.specs.Spelling.{AreBytes};
ghost use Rattle.messages.specs.Spelling.{Datagram, IsDatagram, spelling};
ghost use Rattle.messages.specs.Reading.{Gives, datagram_read};
ghost use Rattle.messages.specs.Lengths.{most_length};

/// A message's spelling reads as that message, and bytes that read as a datagram are its spelling, which may be sent; so a message has one
/// spelling, bytes spell at most one message, and no spelling begins another.
pub fn spellings()
    ensures round_trip { (d : Datagram) → IsDatagram d → datagram_read (spelling d) ≡ Gives d [] }
    ensures exact { (bytes rest : List ℕ) (d : Datagram) → AreBytes bytes → datagram_read bytes ≡ Gives d rest
        → (bytes ≡ spelling d) × (IsDatagram d × (rest ≡ [])) }
    ensures no_beginning { (d e : Datagram) (after_d after_e : List ℕ) → IsDatagram d → IsDatagram e
        → spelling d ++ after_d ≡ spelling e ++ after_e → (d ≡ e) × (after_d ≡ after_e) }
{}

/// No spelling is longer than its kind's greatest length, and none is longer than that of a Promise, 33,028 bytes: what a buffer has to hold.
pub fn lengths()
    ensures of_kind { (d : Datagram) → IsDatagram d → length (spelling d) ≤ most_length d.body }
    ensures of_all { (d : Datagram) → IsDatagram d → length (spelling d) ≤ 33028 }
{}
