//! The queue's counts at the greatest number of their type, which no run comes to: rows of the definitions by which it
//! counts. They are proved, and there is nothing to run.
ghost use Rattle.std.specs.Prelude.{◌≡◌, [], None};
ghost use Rattle.bean_words.specs.declared.op.Op.{Op};
ghost use Rattle.bean_queue.specs.Counting.{nothing_counted, with_op_counted, and_timeouts};
ghost use Rattle.test_queue.specs.AllCounts.{all_counts};

/// A count that is one below the greatest is the greatest after an operation more, and after two; so is that of the
/// time-outs, by one and three more. Where each is the greatest, no operation and no time-out changes any.
pub fn the_greatest_count_of_the_queue_stays()
    ensures put { with_op_counted (Op.Put 0 0 1 []) (record nothing_counted { put = 18446744073709551614 })
        ≡ record nothing_counted { put = 18446744073709551615 } }
    ensures put_twice { with_op_counted (Op.Put 0 0 1 []) (with_op_counted (Op.Put 0 0 1 [])
        (record nothing_counted { put = 18446744073709551614 }))
        ≡ record nothing_counted { put = 18446744073709551615 } }
    ensures reserve_twice { with_op_counted (Op.Reserve None) (with_op_counted (Op.Reserve None)
        (record nothing_counted { reserve = 18446744073709551614 }))
        ≡ record nothing_counted { reserve = 18446744073709551615 } }
    ensures stats_twice { with_op_counted Op.Stats (with_op_counted Op.Stats
        (record nothing_counted { stats = 18446744073709551614 }))
        ≡ record nothing_counted { stats = 18446744073709551615 } }
    ensures timeouts { and_timeouts 3 (and_timeouts 1
        (record nothing_counted { timeouts = 18446744073709551614 }))
        ≡ record nothing_counted { timeouts = 18446744073709551615 } }
    ensures timeouts_at_once { and_timeouts 3
        (record nothing_counted { timeouts = 18446744073709551614 })
        ≡ record nothing_counted { timeouts = 18446744073709551615 } }
    ensures every { (op : Op) → with_op_counted op (all_counts 18446744073709551615)
        ≡ all_counts 18446744073709551615 }
    ensures every_timeout { and_timeouts 1 (all_counts 18446744073709551615)
        ≡ all_counts 18446744073709551615 }
{}
