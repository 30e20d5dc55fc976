#![tactic(auto)]
// What a C call tells beside its result: some numbers into a lent slice, as many as it has room for.
ghost use Rattle.std.specs.Prelude.{◌≡◌};
ghost use Rattle.slip.specs.Slip.{handed};

// The numbers from the slice's front on; what lies behind them stays.
pub fn hand(numbers: &[u64], answer: &mut [u64])
    ensures { answer.new ≡ handed numbers.now answer.old }
{
    let count = numbers.len().min(answer.len());
    answer[..count].copy_from_slice(&numbers[..count]);
}
