// Both makes of a keeper through long sequences of calls, compared with each other and with what was written.
#![tactic(auto)]

#[cfg(test)]
mod tests {
    use keeper::alike::{KeeperCall, answer_alike};
    use keeper::flat_image::FlatImage;
    use keeper::pages::Pages;
    use keeper::{Keeper, KeeperRefusal};
    use std::process::Abort;

    // The record that a step writes: all 97 in turn, in a mixed order.
    fn number_at(step: usize) -> u8 {
        (step % 97 * 31 % 97) as u8
    }

    // What a step writes: another content in each.
    fn content_at(step: usize) -> [u8; 128] {
        let mut content = [(step % 251) as u8; 128];
        content[0] = number_at(step);
        content[127] = (step / 251 % 256) as u8;
        content
    }

    // A record's content as it is expected.
    fn tells<K: Keeper>(rt: &impl Abort, keeper: &K, number: u8, expected: &[u8; 128]) {
        let mut place = [0xAAu8; 128];
        assert_eq!(rt; keeper.read(number, &mut place), Ok(()));
        assert!(rt; place == *expected);
    }

    // Writes, reads and refused calls of one step, to both.
    fn step_alike(rt: &impl Abort, one: &mut FlatImage, other: &mut Pages, step: usize) {
        let content = content_at(step);
        let number = number_at(step);
        let calls = [
            KeeperCall::Write(number, &content),
            KeeperCall::Write(97, &content),
            KeeperCall::Write(number, &content[0..127]),
            KeeperCall::Read(number, 128),
            KeeperCall::Read(number_at(step / 2), 128),
            KeeperCall::Read(number, 129),
            KeeperCall::Read(97, 128),
        ];
        assert!(rt; answer_alike(one, other, &calls));
        tells(rt, one, number, &content);
        tells(rt, other, number, &content);
    }

    // 450 writes: the page is full after 128, and then again and again after 31 more.
    #[test]
    fn both_makes_answer_alike(rt: HostRuntime) {
        let mut image = FlatImage::new();
        let mut pages = Pages::new();
        for step in 0..450 {
            step_alike(&rt, &mut image, &mut pages, step);
        }
        for step in 353..450 {
            tells(&rt, &image, number_at(step), &content_at(step));
            tells(&rt, &pages, number_at(step), &content_at(step));
        }
    }

    // A write and a read that are refused, the place staying as it was.
    fn refuses<K: Keeper>(
        rt: &impl Abort,
        keeper: &mut K,
        number: u8,
        length: u8,
        refusal: KeeperRefusal,
    ) {
        let content = [9u8; 255];
        let mut place = [0xAAu8; 255];
        let n = length as usize;
        assert_eq!(rt; keeper.write(number, &content[0..n]), Err(refusal));
        assert_eq!(rt; keeper.read(number, &mut place[0..n]), Err(refusal));
        assert!(rt; place == [0xAAu8; 255]);
    }

    // Refused calls leave the records alone.
    fn keeps<K: Keeper>(rt: &impl Abort, keeper: &mut K) {
        let refused = [
            (97, 128, KeeperRefusal::Number),
            (255, 128, KeeperRefusal::Number),
            (97, 127, KeeperRefusal::Number),
            (96, 127, KeeperRefusal::Length),
            (96, 129, KeeperRefusal::Length),
            (0, 0, KeeperRefusal::Length),
        ];
        tells(rt, keeper, 96, &[0u8; 128]);
        assert_eq!(rt; keeper.write(96, &[7u8; 128]), Ok(()));
        for (number, length, refusal) in refused {
            refuses(rt, keeper, number, length, refusal);
        }
        tells(rt, keeper, 96, &[7u8; 128]);
        tells(rt, keeper, 0, &[0u8; 128]);
    }

    #[test]
    fn refusals_change_nothing(rt: HostRuntime) {
        keeps(&rt, &mut FlatImage::new());
        keeps(&rt, &mut Pages::new());
    }
}
