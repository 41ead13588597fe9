//! Each key of the tables of streams: missing, unknown, of another type, and out of range on both
//! edges. Those of references stand in references.rt.

use super::check_lines;
use std::test::Fail;

#[test]
fn root_and_policies(rt: HostRuntime) -> Result<(), Fail> {
    check_lines(&rt, rt.alloc(), "", "", ROOTS)
}

const ROOTS: &str = "
 => Missing stream
x = 1 => Unknown x
policy = 1 => Shape policy
policy = {} => Missing stream
policy = {late = 1} => Unknown policy.late
policy = {late_seconds = -1, skew = 1, disorder = 1} => Unknown policy.disorder
policy = {late_seconds = '5'} => Shape policy.late_seconds
policy = {late_seconds = 5.0} => Shape policy.late_seconds
policy = {late_seconds = -1} => Range policy.late_seconds
policy = {late_seconds = 1728001} => Range policy.late_seconds
policy = {late_seconds = 0} => Missing stream
policy = {late_seconds = 1728000} => Missing stream
policy = {disorder_seconds = '0'} => Shape policy.disorder_seconds
policy = {disorder_seconds = -1} => Range policy.disorder_seconds
policy = {disorder_seconds = 601} => Range policy.disorder_seconds
policy = {disorder_seconds = 600} => Missing stream
policy = {action = true} => Shape policy.action
policy = {action = 'Adjust'} => Range policy.action
policy = {action = 'drop'} => Missing stream
policy = {skew_seconds = [1]} => Shape policy.skew_seconds
policy = {skew_seconds = -1} => Range policy.skew_seconds
policy = {skew_seconds = 1728001} => Range policy.skew_seconds
policy = {skew_seconds = 1728000} => Missing stream
policy = {skew_seconds = -1, action = 1} => Shape policy.action
stream = {} => Shape stream
stream = [] => Range stream
stream = ['s'] => Shape stream[0]
a = => Toml
a = 9223372036854775808 => Toml
";

#[test]
fn keys_of_streams(rt: HostRuntime) -> Result<(), Fail> {
    check_lines(&rt, rt.alloc(), "stream = [{", "}]", STREAMS)
}

const STREAMS: &str = "
 => Missing stream[0].name
zz = 1, aa = 1 => Unknown stream[0].aa
partition = 1 => Missing stream[0].name
name = 1 => Shape stream[0].name
name = '' => Range stream[0].name
name = 'aaaaaaaaaaaaaaaaaaaaaaaaaaaaaaaaaaaaaaaaaaaaaaaaaaaaaaaaaaaaaaaaa' => Range stream[0].name
name = 'aaaaaaaaaaaaaaaaaaaaaaaaaaaaaaaaaaaaaaaaaaaaaaaaaaaaaaaaaaaaaaaa' => Missing stream[0].format
name = 's', format = 1 => Shape stream[0].format
name = 's', format = 'JSON' => Range stream[0].format
name = 's', format = 'avro' => Range stream[0].format
name = 's', format = 'json' => Missing stream[0].columns
name = 's', format = 'json', delimiter = 1 => Shape stream[0].delimiter
name = 's', format = 'json', delimiter = ',' => Range stream[0].delimiter
name = 's', format = 'csv', delimiter = '' => Range stream[0].delimiter
name = 's', format = 'csv', delimiter = ':' => Range stream[0].delimiter
name = 's', format = 'csv', delimiter = ',,' => Range stream[0].delimiter
name = 's', format = 'csv', delimiter = '|' => Missing stream[0].columns
name = 's', format = 'csv', columns = 1 => Shape stream[0].columns
name = 's', format = 'json', columns = [] => Range stream[0].columns
name = 's', format = 'json', columns = [1] => Shape stream[0].columns[0]
name = 's', format = 'json', columns = [{name = 'a', kind = 'bit'}] => Missing stream[0].partition
";

#[test]
fn keys_of_columns(rt: HostRuntime) -> Result<(), Fail> {
    let front = "stream = [{name = 's', format = 'json', columns = [";
    check_lines(&rt, rt.alloc(), front, "], partition = [{}]}]", COLUMNS)
}

const COLUMNS: &str = "
{} => Missing stream[0].columns[0].name
{kind = 1, path = 1, field = 1} => Unknown stream[0].columns[0].field
{name = 1} => Shape stream[0].columns[0].name
{name = ''} => Range stream[0].columns[0].name
{name = 'a'} => Missing stream[0].columns[0].kind
{name = 'a', kind = 1} => Shape stream[0].columns[0].kind
{name = 'a', kind = 'nvarchar'} => Range stream[0].columns[0].kind
{name = 'a', kind = 'bit', path = 'a'} => Shape stream[0].columns[0].path
{name = 'a', kind = 'bit', path = []} => Range stream[0].columns[0].path
{name = 'a', kind = 'bit', path = ['a', 1]} => Shape stream[0].columns[0].path[1]
{name = 'a', kind = 'bit', path = ['', 'b', 'c', 'd', 'e', 'f', 'g', 'h']} => Inputs
{name = 'a', kind = 'bit', path = ['', 'b', 'c', 'd', 'e', 'f', 'g', 'h', 1]} => Range stream[0].columns[0].path
{name = 'a', kind = 'bit'}, {name = 'b', kind = 'float'} => Range stream[0].columns[1].kind
{name = 'a', kind = 'bit'}, {name = 'a', kind = 'fixed'} => Twice a
{name = 'a', kind = 'bigint'}, {name = 'A', kind = 'datetime'} => Inputs
";

#[test]
fn keys_of_partitions(rt: HostRuntime) -> Result<(), Fail> {
    let front =
        "stream = [{name = 's', format = 'csv', columns = [{name = 'a', kind = 'bit'}], partition = ";
    check_lines(&rt, rt.alloc(), front, "}]", PARTITIONS)
}

const PARTITIONS: &str = "
{} => Shape stream[0].partition
[] => Range stream[0].partition
[1] => Shape stream[0].partition[0]
[{end = true}] => Unknown stream[0].partition[0].end
[{ended = 1}] => Shape stream[0].partition[0].ended
[{ended = 'true', segments = 1}] => Shape stream[0].partition[0].ended
[{segments = 1}] => Shape stream[0].partition[0].segments
[{segments = []}] => Inputs
[{segments = ['f']}] => Shape stream[0].partition[0].segments[0]
[{segments = [{}]}] => Missing stream[0].partition[0].segments[0].file
[{segments = [{file = 'f', from = 1}]}] => Unknown stream[0].partition[0].segments[0].from
[{segments = [{file = 1}]}] => Shape stream[0].partition[0].segments[0].file
[{segments = [{file = ''}]}] => Range stream[0].partition[0].segments[0].file
[{segments = [{file = 'f'}]}] => Missing stream[0].partition[0].segments[0].through
[{segments = [{file = 'f', through = 2024-01-01T00:00:00Z}]}] => Shape stream[0].partition[0].segments[0].through
[{segments = [{file = 'f', through = '2024-01-32'}]}] => Range stream[0].partition[0].segments[0].through
[{segments = [{file = 'f', through = '3000-01-01'}]}] => Range stream[0].partition[0].segments[0].through
[{segments = [{file = 'f', through = '1969-12-31'}]}] => Range stream[0].partition[0].segments[0].through
[{segments = [{file = 'f', through = '1970-01-01'}]}] => Inputs
[{}, {segments = [{file = 'f', through = '2024-01-01'}, {file = 'g'}]}] => Missing stream[0].partition[1].segments[1].through
[{segments = [{file = 'f', through = '2024-01-02'}, {file = 'g', through = '2024-01-02'}]}] => Inputs
[{segments = [{file = 'f', through = '2024-01-02'}]}, {segments = [{file = 'g', through = '2024-01-01'}]}] => Inputs
[{segments = [{file = 'f', through = '2024-01-02'}, {file = 'g', through = '2024-01-01'}]}] => ThroughOrder stream[0].partition[0].segments[1].through
[{}, {segments = [{file = 'f', through = '2024-01-01'}, {file = 'g', through = '2024-01-03'}, {file = 'h', through = '2024-01-02'}]}] => ThroughOrder stream[0].partition[1].segments[2].through
[{}]}, {name = 's', format = 'csv', columns = [{name = 'a', kind = 'bit'}, {name = 'a', kind = 'bit'}], partition = [{}] => Twice s
[{}]}, {name = 't', format = 'csv', columns = [{name = 'a', kind = 'bit'}, {name = 'a', kind = 'bit'}], partition = [{}] => Twice a
[{segments = [{file = 'f', through = '2024-01-02'}, {file = 'g', through = '2024-01-01'}]}]}, {name = 's', format = 'csv', columns = [{name = 'a', kind = 'bit'}], partition = [{}] => Twice s
[{segments = [{file = 'f', through = '2024-01-02'}, {file = 'g', through = '2024-01-01'}]}]}, { => Missing stream[1].name
";
