use super::{Coins, Tape, TapeError};
use mask_io::MemEntropy;
use std::test::Fail;

// Spends the coins, and says whether they were these.
fn are_coins(mut coins: Coins, want: &[u64]) -> bool {
    let same = coins.words() == want;
    while coins.left() > 0 {
        let _word = coins.next();
    }
    coins.finish();
    same
}

fn is_failure(answer: Result<Coins, TapeError>) -> bool {
    match answer {
        Ok(coins) => are_coins(coins, &[]) && false,
        Err(error) => error == TapeError::Failed,
    }
}

#[test]
fn kept_bits_come_first(rt: HostRuntime) -> Result<(), Fail> {
    let mut entropy = MemEntropy::new(vec![in rt.alloc(); 0xa5, 0x3c]?, Vec::new(rt.alloc()));
    let mut tape = Tape::new();
    assert!(rt; are_coins(tape.reserve(rt.alloc(), &mut entropy, 1, 4)?, &[1, 0, 1, 0]));
    assert!(rt; are_coins(tape.reserve(rt.alloc(), &mut entropy, 1, 3)?, &[0, 1, 0]));
    // One bit is kept, and the second byte is still left.
    assert!(rt; are_coins(tape.reserve(rt.alloc(), &mut entropy, 1, 1)?, &[1]));
    assert!(rt;
        are_coins(
            tape.reserve(rt.alloc(), &mut entropy, 1, 8)?,
            &[0, 0, 1, 1, 1, 1, 0, 0]
        )
    );
    Ok(())
}

#[test]
fn each_lane_has_its_own_stretch(rt: HostRuntime) -> Result<(), Fail> {
    let mut entropy = MemEntropy::new(vec![in rt.alloc(); 0xa5, 0x3c]?, Vec::new(rt.alloc()));
    let mut tape = Tape::new();
    assert!(rt; are_coins(tape.reserve(rt.alloc(), &mut entropy, 2, 4)?, &[1, 2, 1, 2]));
    assert!(rt; are_coins(tape.reserve(rt.alloc(), &mut entropy, 1, 3)?, &[0, 0, 1]));
    // Five bits are kept, and six are too many.
    assert!(rt; is_failure(tape.reserve(rt.alloc(), &mut entropy, 1, 6)));
    assert!(rt;
        are_coins(
            tape.reserve(rt.alloc(), &mut entropy, 1, 5)?,
            &[1, 1, 1, 0, 0]
        )
    );
    Ok(())
}
