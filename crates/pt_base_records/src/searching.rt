ghost use Rattle.std.specs.Prelude.{◌≡◌, ◌<◌, ◌≤◌, length, take, drop, MatchResult, slice_index_or};
ghost use Rattle.std.specs.Option.{option_copied};
ghost use Rattle.pt_base_records.specs.Records.{Each, IsInOrder, record_at, within};

use crate::{Key, Keyed, Span};

/// How many of the records come before this key.
fn count_before<T: Keyed>(records: &[T], key: &Key) -> usize
    requires { IsInOrder T.key records.now }
    ensures bound { result ≤ length records.now }
    ensures before { Each (λ there. T.key there < key.now) (take result records.now) }
    ensures rest { Each (λ there. key.now ≤ T.key there) (drop result records.now) }
{
    records.partition_point(|there| there.key().is_before(key))
}

/// How many of the records have this key or come before it.
fn count_up_to<T: Keyed>(records: &[T], key: &Key) -> usize
    requires { IsInOrder T.key records.now }
    ensures bound { result ≤ length records.now }
    ensures up_to { Each (λ there. T.key there ≤ key.now) (take result records.now) }
    ensures rest { Each (λ there. key.now < T.key there) (drop result records.now) }
{
    records.partition_point(|there| !key.is_before(&there.key()))
}

/// The position of the record with this key (`Ok`), or where it would go (`Err`).
pub(crate) fn position_of<T: Keyed>(records: &[T], key: &Key) -> Result<usize, usize>
    requires { IsInOrder T.key records.now }
    ensures bound { MatchResult result (λ at. at < length records.now) (λ at. at ≤ length records.now) }
    ensures before { MatchResult result
        (λ at. Each (λ there. T.key there < key.now) (take at records.now))
        (λ at. Each (λ there. T.key there < key.now) (take at records.now)) }
    ensures here { MatchResult result
        (λ at. (d : T) → T.key (slice_index_or records.now at d) ≡ key.now)
        (λ at. Each (λ there. key.now < T.key there) (drop at records.now)) }
{
    let at = count_before(records, key);
    if at == records.len() || key.is_before(&records[at].key()) {
        return Err(at);
    }
    Ok(at)
}

/// The record with this key, by binary search.
pub fn find_record<'a, T: Keyed>(records: &'a [T], key: &Key) -> Option<&'a T>
    requires { IsInOrder T.key records.now }
    ensures value { option_copied result ≡ record_at T.key key.now records.now }
{
    match position_of(records, key) {
        Ok(at) => Some(&records[at]),
        Err(_) => None,
    }
}

/// The records with these keys.
pub(crate) fn find_within<'a, T: Keyed>(records: &'a [T], span: &Span) -> &'a [T]
    requires { IsInOrder T.key records.now }
    ensures value { result.now ≡ within T.key span.now records.now }
{
    let (_, rest) = records.split_at(count_before(records, &span.from));
    let (found, _) = rest.split_at(count_up_to(rest, &span.to));
    found
}
