//! What was sent comes back: how a proof cites the law.

ghost use Rattle.pgv.specs.Words.{ArgumentReadsBack, reading_of};

use crate::mood::Mood;
use crate::user_id::UserId;
use pgv::{Decode, Encode, PgEnum, PgNewtype, ReadBack, laws};

/// The number of a user.
type User = PgNewtype<UserId>;

/// Moods, each of which may be null.
type Moods = Vec<Option<PgEnum<Mood>>>;

/// Whatever was added, refused and filled: the number of a user is read, from the part of the argument that was added
/// for it, as the same number. It has no slots and no holes, and it fits every type.
pub fn users_come_back()
    ensures { ArgumentReadsBack ⟦<User as Encode>⟧.encoding (reading_of ⟦<User as Decode>⟧.parse)
        (λ id. ⟦<User as Decode>⟧.view (⟦<User as ReadBack>⟧.kept id)) ⟦<User as ReadBack>⟧.fits }
{
    laws::wire::argument_reads_back::<User>();
}

/// So is what is made of such types: a list of moods comes back under each type that fits. In plain words these are the
/// array types of `mood`, with the OID of `mood` in the hole ([`nests_fit`](pgv::laws::codec::nests_fit)).
pub fn moods_come_back()
    ensures { ArgumentReadsBack ⟦<Moods as Encode>⟧.encoding (reading_of ⟦<Moods as Decode>⟧.parse)
        (λ v. ⟦<Moods as Decode>⟧.view (⟦<Moods as ReadBack>⟧.kept v)) ⟦<Moods as ReadBack>⟧.fits }
{
    laws::wire::argument_reads_back::<Moods>();
}
