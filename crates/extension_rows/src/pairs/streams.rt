//! What a stream has, and its partitions.

use super::check_lines;
use std::test::Fail;

#[test]
fn a_stream_has_what_it_had(rt: HostRuntime) -> Result<(), Fail> {
    let front = "stream = [{partition = [{}], name = ";
    check_lines(&rt, rt.alloc(), front, "}]", STREAMS)
}

const STREAMS: &str = "
'a', format = 'csv', columns = [{name = 'k', kind = 'bit'}] -> 'a', format = 'csv', columns = [{name = 'k', kind = 'bit'}] => Extends
'a', format = 'csv', columns = [{name = 'k', kind = 'bit'}] -> 'a', format = 'csv', delimiter = ',', columns = [{name = 'k', kind = 'bit', path = ['k']}] => Extends
'a', format = 'csv', columns = [{name = 'k', kind = 'bit'}] -> 'b', format = 'csv', columns = [{name = 'k', kind = 'bit'}] => Changed a
'a', format = 'csv', columns = [{name = 'k', kind = 'bit'}] -> 'A', format = 'csv', columns = [{name = 'k', kind = 'bit'}] => Changed a
'a', format = 'csv', columns = [{name = 'k', kind = 'bit'}] -> 'a', format = 'json', columns = [{name = 'k', kind = 'bit'}] => Changed a
'a', format = 'csv', columns = [{name = 'k', kind = 'bit'}] -> 'a', format = 'csv', delimiter = ';', columns = [{name = 'k', kind = 'bit'}] => Changed a
'a', format = 'csv', columns = [{name = 'k', kind = 'bit'}] -> 'a', format = 'csv', columns = [{name = 'k', kind = 'bigint'}] => Changed a
'a', format = 'csv', columns = [{name = 'k', kind = 'bit'}] -> 'a', format = 'csv', columns = [{name = 'l', kind = 'bit', path = ['k']}] => Changed a
'a', format = 'csv', columns = [{name = 'k', kind = 'bit'}] -> 'a', format = 'csv', columns = [{name = 'k', kind = 'bit', path = ['l']}] => Changed a
'a', format = 'csv', columns = [{name = 'k', kind = 'bit'}] -> 'a', format = 'csv', columns = [{name = 'k', kind = 'bit', path = ['k', 'k']}] => Changed a
'a', format = 'csv', columns = [{name = 'k', kind = 'bit'}] -> 'a', format = 'csv', columns = [{name = 'k', kind = 'bit'}, {name = 'l', kind = 'bit'}] => Changed a
'a', format = 'csv', columns = [{name = 'k', kind = 'bit'}, {name = 'l', kind = 'bit'}] -> 'a', format = 'csv', columns = [{name = 'k', kind = 'bit'}] => Changed a
'a', format = 'csv', columns = [{name = 'k', kind = 'bit'}, {name = 'l', kind = 'bit'}] -> 'a', format = 'csv', columns = [{name = 'l', kind = 'bit'}, {name = 'k', kind = 'bit'}] => Changed a
";

#[test]
fn partitions_go_on_until_they_end(rt: HostRuntime) -> Result<(), Fail> {
    let front =
        "stream = [{name = 'a', format = 'csv', columns = [{name = 'k', kind = 'bit'}], partition = [";
    check_lines(&rt, rt.alloc(), front, "]}]", PARTITIONS)
}

const PARTITIONS: &str = "
{} -> {} => Extends
{} -> {ended = false, segments = []} => Extends
{} -> {ended = true} => Extends
{} -> {segments = [{file = 'f', through = '2024-01-01'}]} => Extends
{segments = [{file = 'f', through = '2024-01-01'}]} -> {segments = [{file = 'f', through = '2024-01-01'}]} => Extends
{segments = [{file = 'f', through = '2024-01-01'}]} -> {segments = [{file = 'f', through = '2024-01-01T00:00:00Z'}, {file = 'g', through = '2024-01-02'}]} => Extends
{segments = [{file = 'f', through = '2024-01-01'}]} -> {ended = true, segments = [{file = 'f', through = '2024-01-01'}, {file = 'f', through = '2024-01-01'}]} => Extends
{}, {segments = [{file = 'f', through = '2024-01-01'}]} -> {segments = [{file = 'g', through = '2024-01-01'}]}, {ended = true, segments = [{file = 'f', through = '2024-01-01'}]} => Extends
{segments = [{file = 'f', through = '2024-01-01'}]} -> {} => Changed a
{segments = [{file = 'f', through = '2024-01-01'}]} -> {segments = [{file = 'g', through = '2024-01-01'}]} => Changed a
{segments = [{file = 'f', through = '2024-01-01'}]} -> {segments = [{file = 'f', through = '2024-01-01T00:00:00.0000001Z'}]} => Changed a
{segments = [{file = 'f', through = '2024-01-01'}]} -> {segments = [{file = 'g', through = '2024-01-01'}, {file = 'f', through = '2024-01-01'}]} => Changed a
{segments = [{file = 'f', through = '2024-01-01'}, {file = 'g', through = '2024-01-01'}]} -> {segments = [{file = 'g', through = '2024-01-01'}, {file = 'f', through = '2024-01-01'}]} => Changed a
{segments = [{file = 'f', through = '2024-01-01'}, {file = 'g', through = '2024-01-01'}]} -> {segments = [{file = 'f', through = '2024-01-01'}]} => Changed a
{} -> {}, {} => Changed a
{}, {} -> {} => Changed a
{segments = [{file = 'f', through = '2024-01-01'}]}, {} -> {}, {segments = [{file = 'f', through = '2024-01-01'}]} => Changed a
{ended = true} -> {ended = true} => Extends
{ended = true} -> {} => AfterEnd a
{ended = true} -> {ended = true, segments = [{file = 'f', through = '2024-01-01'}]} => AfterEnd a
{ended = true, segments = [{file = 'f', through = '2024-01-01'}]} -> {segments = [{file = 'f', through = '2024-01-01'}]} => AfterEnd a
{ended = true, segments = [{file = 'f', through = '2024-01-01'}]} -> {ended = true, segments = [{file = 'f', through = '2024-01-01'}, {file = 'g', through = '2024-01-02'}]} => AfterEnd a
{}, {ended = true} -> {segments = [{file = 'f', through = '2024-01-01'}]}, {ended = false} => AfterEnd a
{ended = true, segments = [{file = 'f', through = '2024-01-01'}]} -> {ended = true} => Changed a
{ended = true}, {segments = [{file = 'f', through = '2024-01-01'}]} -> {ended = false}, {} => Changed a
{ended = true} -> {ended = true}, {} => Changed a
";
