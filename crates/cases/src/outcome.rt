use plan::refusal::Refusal;

/// What a call came to, with a refusal told by its number.
pub(crate) fn by_number<T>(outcome: Result<T, Refusal>) -> Result<T, u8> {
    outcome.map_err(|refusal| refusal.number())
}

/// What a call came to, with a refusal told by its number and its values, which have zeros behind them.
pub(crate) fn by_values<T>(outcome: Result<T, Refusal>) -> Result<T, (u8, [usize; 4])> {
    outcome.map_err(|refusal| {
        let values = refusal.values();
        let mut padded = [0; 4];
        for (place, value) in padded.iter_mut().zip(values.as_slice()) {
            *place = *value;
        }
        (refusal.number(), padded)
    })
}
