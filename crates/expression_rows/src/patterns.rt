//! LIKE: `%` for any characters, `_` for one, all others exactly.

use crate::answers::check_truths;
use std::test::Fail;

// A condition, and its truth.
const PATTERNS: [(&str, &str); 40] = [
    ("word LIKE 'sensor'", "true"),
    ("word LIKE 'Sensor'", "false"),
    ("word LIKE 'sens'", "false"),
    ("word LIKE 'ensor'", "false"),
    ("word LIKE 's%'", "true"),
    ("word LIKE '%r'", "true"),
    ("word LIKE 's%r'", "true"),
    ("word LIKE '%nso%'", "true"),
    ("word LIKE '%nss%'", "false"),
    ("word LIKE '%'", "true"),
    ("word LIKE '%%r'", "true"),
    ("word LIKE 'sensor%'", "true"),
    ("word LIKE 's_nsor'", "true"),
    ("word LIKE '______'", "true"),
    ("word LIKE '_____'", "false"),
    ("word LIKE '_______'", "false"),
    ("word LIKE '_%r'", "true"),
    ("word LIKE 'sensor_'", "false"),
    ("word LIKE ''", "false"),
    ("blank LIKE ''", "true"),
    ("blank LIKE '%'", "true"),
    ("blank LIKE '_'", "false"),
    ("city LIKE 'Z_rich'", "true"),
    ("city LIKE 'Z__rich'", "false"),
    ("city LIKE '%ü%'", "true"),
    ("'abc' LIKE 'a.c'", "false"),
    ("'a[b]c' LIKE 'a[b]c'", "true"),
    ("'ab' LIKE '[a]b'", "false"),
    ("'50%' LIKE '50%'", "true"),
    ("'a_b' LIKE 'axb'", "false"),
    ("'it''s' LIKE 'it''_'", "true"),
    ("'mississippi' LIKE '%iss%pi'", "true"),
    ("'mississippi' LIKE '%iss_pi'", "false"),
    ("'aab' LIKE '%ab'", "true"),
    ("word NOT LIKE 'x%'", "true"),
    ("word NOT LIKE 's%'", "false"),
    ("no_text LIKE '%'", "unknown"),
    ("no_text NOT LIKE 's%'", "unknown"),
    ("no_text LIKE ''", "unknown"),
    ("NULL LIKE 'a'", "unknown"),
];

#[test]
fn texts_fit_patterns_by_characters(rt: HostRuntime) -> Result<(), Fail> {
    check_truths(&rt, rt.alloc(), &PATTERNS)
}
