// The cases that the page names beside A to M, with their neighbours at each bound. p = 10 and β = 2 unless said.

pub const CASES: &[(&str, &[u8])] = &[
    // The bounds of the running time and the headway.
    ("p = 2, headway 1", b"3 2 2 1\n1 1\n1 1\n0\n"),
    ("p = 1, headway 1", b"3 2 1 1\n1 1\n1 1\n0\n"),
    ("p = 1, headway 0", b"3 2 1 0\n1 1\n1 1\n0\n"),
    ("p = 10, headway 0", b"3 2 10 0\n1 1\n1 1\n0\n"),
    ("p = 10000, headway 9999", b"3 2 10000 9999\n2 1 1\n0\n0\n"),
    ("p = 10001", b"3 2 10001 2\n1 1\n1 1\n0\n"),
    // The bounds of a weight.
    ("weight 10000", b"3 2 10 2\n1 10000\n0\n0\n"),
    ("weight 10001", b"3 2 10 2\n1 10001\n0\n0\n"),
    (
        "weight 10001 of the last train",
        b"3 2 10 2\n2 0 10000\n1 10001\n0\n",
    ),
    ("weight -1", b"3 2 10 2\n1 -1\n0\n0\n"),
    // The bounds of a due time.
    ("due time 1000000", b"3 1 10 2\n0\n1 1000000\n0\n"),
    ("due time 1000001", b"3 1 10 2\n0\n1 1000001\n0\n"),
    ("due time -1000000", b"3 1 10 2\n1 -1000000\n0\n0\n"),
    ("due time -1000001", b"3 1 10 2\n1 -1000001\n0\n0\n"),
    // Recorded departures.
    ("departure 10000000", b"3 2 10 2\n1 1\n0\n1 10000000\n"),
    ("departure 10000001", b"3 2 10 2\n1 1\n0\n1 10000001\n"),
    (
        "departure 10000001 of the last train",
        b"3 2 10 2\n1 1\n1 1\n2 0 10000001\n",
    ),
    (
        "no departure for the last train",
        b"3 2 10 2\n1 1\n1 1\n1 0\n",
    ),
    (
        "a headway of 1, not of neighbours in the list",
        b"3 2 10 2\n3 1 1 1\n0\n3 0 20 1\n",
    ),
    ("a headway of 2", b"3 2 10 2\n3 1 1 1\n0\n3 0 20 2\n"),
    // The numbers of refusal that name no train, the first that applies.
    ("unknown objective, empty lists", b"3 5 10 2\n0\n0\n0\n"),
    ("objective 0, p = 1", b"3 0 1 1\n1 1\n0\n0\n"),
    (
        "16 numbers under objective 3",
        b"3 3 10 2\n16 1 0 0 0 0 0 0 0 0 0 0 0 0 0 0 0\n0\n0\n",
    ),
    (
        "16 numbers under objective 4",
        b"3 4 10 2\n0\n16 1 0 0 0 0 0 0 0 0 0 0 0 0 0 0 0\n0\n",
    ),
    ("no train", b"3 2 10 2\n0\n0\n0\n"),
    ("no train, two departures", b"3 2 10 2\n0\n0\n2 0 10\n"),
];
