// Rows, of one train or two: what they cost, each bound with the number beyond it, and each rule broken. p = 10 and β = 2.

pub const CASES: &[(&str, &[u8])] = &[
    // The arrival at the very second of a step, the largest cost in place of the sum, and list order.
    (
        "I, the second start 20",
        b"3 3 10 2\n17 2 0 15 0 0 0 0 0 0 0 100 0 0 0 0 0 0\n17 2 0 20 0 0 0 0 0 0 0 40 0 0 0 0 0 0\n0\n",
    ),
    (
        "I, the second start 21",
        b"3 3 10 2\n17 2 0 15 0 0 0 0 0 0 0 100 0 0 0 0 0 0\n17 2 0 21 0 0 0 0 0 0 0 40 0 0 0 0 0 0\n0\n",
    ),
    (
        "I, the largest cost",
        b"3 4 10 2\n17 2 0 15 0 0 0 0 0 0 0 100 0 0 0 0 0 0\n17 2 0 15 0 0 0 0 0 0 0 40 0 0 0 0 0 0\n0\n",
    ),
    (
        "two one-step trains recorded 2, 0",
        b"3 3 10 2\n34 1 0 0 0 0 0 0 0 0 0 0 0 0 0 0 0 0 1 0 0 0 0 0 0 0 0 0 0 0 0 0 0 0 0\n0\n2 2 0\n",
    ),
    (
        "two one-step trains recorded 0, 2",
        b"3 3 10 2\n34 1 0 0 0 0 0 0 0 0 7 0 0 0 0 0 0 0 1 0 0 0 0 0 0 0 0 5 0 0 0 0 0 0 0\n0\n2 0 2\n",
    ),
    // The costs of two trains, as their sum and as the larger.
    (
        "two trains of cost 4, the sum",
        b"3 3 10 2\n34 1 0 0 0 0 0 0 0 0 4 0 0 0 0 0 0 0 1 0 0 0 0 0 0 0 0 4 0 0 0 0 0 0 0\n0\n0\n",
    ),
    (
        "two trains of cost 4, the largest",
        b"3 4 10 2\n34 1 0 0 0 0 0 0 0 0 4 0 0 0 0 0 0 0 1 0 0 0 0 0 0 0 0 4 0 0 0 0 0 0 0\n0\n0\n",
    ),
    // The largest rows.
    (
        "eight steps",
        b"3 3 10 2\n17 8 0 1 2 3 4 5 6 7 0 1 2 3 4 5 6 7\n0\n0\n",
    ),
    (
        "a start of 1000000",
        b"3 3 10 2\n17 2 0 1000000 0 0 0 0 0 0 3 4 0 0 0 0 0 0\n0\n0\n",
    ),
    (
        "a cost of 1000000",
        b"3 3 10 2\n17 1 0 0 0 0 0 0 0 0 1000000 0 0 0 0 0 0 0\n0\n0\n",
    ),
    // Rows one beyond a bound.
    (
        "no step",
        b"3 3 10 2\n17 0 0 0 0 0 0 0 0 0 0 0 0 0 0 0 0 0\n0\n0\n",
    ),
    (
        "nine steps",
        b"3 3 10 2\n17 9 0 1 2 3 4 5 6 7 0 1 2 3 4 5 6 7\n0\n0\n",
    ),
    (
        "a start of 1000001",
        b"3 3 10 2\n17 2 0 1000001 0 0 0 0 0 0 3 4 0 0 0 0 0 0\n0\n0\n",
    ),
    (
        "a cost of 1000001",
        b"3 3 10 2\n17 1 0 0 0 0 0 0 0 0 1000001 0 0 0 0 0 0 0\n0\n0\n",
    ),
    (
        "a cost of -1",
        b"3 3 10 2\n17 1 0 0 0 0 0 0 0 0 -1 0 0 0 0 0 0 0\n0\n0\n",
    ),
    // Rows that break their rule.
    (
        "a first start of 1",
        b"3 3 10 2\n17 1 1 0 0 0 0 0 0 0 0 0 0 0 0 0 0 0\n0\n0\n",
    ),
    (
        "a start twice",
        b"3 3 10 2\n0\n17 2 0 0 0 0 0 0 0 0 0 0 0 0 0 0 0 0\n0\n",
    ),
    (
        "a cost that falls",
        b"3 3 10 2\n17 2 0 5 0 0 0 0 0 0 3 2 0 0 0 0 0 0\n0\n0\n",
    ),
    (
        "an unused start of 1",
        b"3 3 10 2\n17 1 0 1 0 0 0 0 0 0 0 0 0 0 0 0 0 0\n0\n0\n",
    ),
    (
        "an unused cost of 1",
        b"3 3 10 2\n17 1 0 0 0 0 0 0 0 0 0 1 0 0 0 0 0 0\n0\n0\n",
    ),
];
