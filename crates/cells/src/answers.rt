// What a call on a sheet answers: a tone its reading, the others nothing, and each its refusal.
use refusal::Fault;

pub type Answer<R> = Result<Option<R>, Fault>;
